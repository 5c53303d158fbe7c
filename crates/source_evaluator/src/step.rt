//! A step of a run: the work on top is done.

ghost use Rattle.std.specs.Prelude.{◌≡◌, ◌==◌, suc, nat_lt, map, length};
ghost use Rattle.source_values.specs.Halts.{Gives};
ghost use Rattle.source_evaluator.specs.Steps as spec;
ghost use Rattle.source_evaluator.specs.Views.{event_of, state_of, work_of};
ghost use Rattle.xanadu_tree.specs.PlainOf.{plain_fun, plain_block};

use crate::control::{
    choose, give_back, go_on_where_false, go_on_where_true, pay, say, set_to, split_to, turn,
};
use crate::expressions::{begin_all, begin_any, begin_links, begin_operands, decide, evaluate};
use crate::machine::{Event, Machine, push_two};
use crate::operands::{act, allocate, take_values};
use crate::statements::begin_block;
use crate::tasks::Task;
use source_values::{Halt, Value, Variables};
use std::mem;
use xanadu_tree::CoreFun;

/// The function begins with these values.
fn enter<'a>(fun: &'a CoreFun, args: &[Value], m: &mut Machine<'a>) -> Result<(), Halt>
    ensures { Gives (λ _. state_of m.new) result (spec.entered_if (length args.now == length fun.now.params) (plain_fun fun.now) args.now (state_of m.old)) }
{
    if args.len() != fun.params.as_slice().len() {
        return Err(Halt::Stuck);
    }
    let env = Variables::new(*m.store.allocator(), args, fun.kinds.as_slice().len())?;
    let caller = mem::replace(&mut m.env, env);
    m.callers.push(caller)?;
    push_two(
        Task::Statements(fun.body.as_slice()),
        Task::Back,
        &mut m.work,
    )?;
    Ok(())
}

/// Where there may be one activation more, the function takes its unit and begins.
fn activate<'a>(
    fun: &'a CoreFun,
    depth: u64,
    args: &[Value],
    m: &mut Machine<'a>,
) -> Result<(), Halt>
    ensures { Gives (λ _. state_of m.new) result (spec.activated (nat_lt (suc (length m.old.callers)) depth) (plain_fun fun.now) args.now (state_of m.old)) }
{
    if m.callers.len() as u64 >= depth.saturating_sub(1) {
        return Err(Halt::NoStore);
    }
    pay(&mut m.units)?;
    enter(fun, args, m)
}

/// Calls a function with the values on top.
fn call<'a>(
    funs: &'a [CoreFun],
    depth: u64,
    fun: u32,
    count: usize,
    m: &mut Machine<'a>,
) -> Result<(), Halt>
    ensures { Gives (λ _. state_of m.new) result (spec.calling (map plain_fun funs.now) depth fun count (state_of m.old)) }
{
    let args = take_values(*m.store.allocator(), count, &mut m.values)?;
    let Some(fun) = funs.get(fun as usize) else {
        return Err(Halt::Stuck);
    };
    activate(fun, depth, args.as_slice(), m)
}

/// Does a piece of work that leaves work or values alone.
#[tactic(auto, unfolding(crate::specs::Steps::going))]
fn go_on<'a>(
    task: Task<'a>,
    funs: &'a [CoreFun],
    depth: u64,
    m: &mut Machine<'a>,
) -> Result<(), Halt>
    ensures { Gives (λ _. state_of m.new) result (spec.going (map plain_fun funs.now) depth (work_of task.entry) (state_of m.old)) }
{
    match task {
        Task::Operand(e) => evaluate(e, m)?,
        Task::Operands(es) => begin_operands(es, m)?,
        Task::Links(links) => begin_links(links, m)?,
        Task::CallWith(fun, count) => call(funs, depth, fun, count, m)?,
        Task::Decide(test) => decide(test, m)?,
        Task::AllParts(parts) => begin_all(parts, m)?,
        Task::AnyParts(parts) => begin_any(parts, m)?,
        Task::WhereTrue(others) => go_on_where_true(others, m)?,
        Task::WhereFalse(others) => go_on_where_false(others, m)?,
        Task::Statements(statements) => begin_block(statements, m)?,
        Task::SetTo(x) => set_to(x, m)?,
        Task::SplitTo(xs) => split_to(xs, m)?,
        Task::Choose(on_true, on_false) => choose(on_true, on_false, m)?,
        Task::Loop(test, body) => {
            push_two(Task::Decide(test), Task::Turn(test, body), &mut m.work)?
        }
        Task::Turn(test, body) => turn(test, body, m)?,
        Task::Join(_)
        | Task::Negate
        | Task::Relate(_)
        | Task::ReadCell
        | Task::Measure
        | Task::Decided
        | Task::Opposite
        | Task::Forget => act(task, &m.store, &mut m.values)?,
        Task::MakeTuple(_, _) | Task::MakeArray(_) | Task::PutCell => {
            allocate(task, &mut m.store, &mut m.values)?
        }
        Task::Say | Task::GiveBack | Task::Back => return Err(Halt::Stuck),
    }
    Ok(())
}

/// Does a piece of work, and tells what came of it.
#[tactic(auto, unfolding(crate::specs::Steps::done))]
fn perform<'a>(
    task: Task<'a>,
    funs: &'a [CoreFun],
    depth: u64,
    m: &mut Machine<'a>,
) -> Result<Event, Halt>
    ensures { Gives (λ event. (event_of event, state_of m.new)) result (spec.done (map plain_fun funs.now) depth (work_of task.entry) (state_of m.old)) }
{
    if let Task::Say = task {
        return say(m);
    }
    if let Task::GiveBack = task {
        return give_back(m);
    }
    go_on(task, funs, depth, m)?;
    Ok(Event::Goes)
}

/// Does the work on top. Where nothing is left to do, a body has given no value.
pub(crate) fn step<'a>(funs: &'a [CoreFun], depth: u64, m: &mut Machine<'a>) -> Result<Event, Halt>
    ensures { Gives (λ event. (event_of event, state_of m.new)) result (spec.stepped (map plain_fun funs.now) depth (state_of m.old)) }
{
    match m.work.pop() {
        Some(task) => perform(task, funs, depth, m),
        None => Err(Halt::Stuck),
    }
}
