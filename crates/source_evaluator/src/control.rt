//! What goes on behind a truth value, assignments, and what a function gives.

ghost use Rattle.std.specs.Prelude.{◌≡◌, ◌∷◌, [], map, true, false, Some, None};
ghost use Rattle.source_values.specs.Halts.{Gives};
ghost use Rattle.source_evaluator.specs.Steps as spec;
ghost use Rattle.source_evaluator.specs.Views.{event_of, state_of, work_of, works};
ghost use Rattle.xanadu_tree.specs.PlainOf.{plain_block, plain_test, to_tests};

use crate::machine::{Event, Machine, push_one, push_two};
use crate::operands::pop_one;
use crate::stack::Stack;
use crate::tasks::Task;
use source_values::{Halt, Tag, Value, set_all};
use xanadu_tree::{CoreStmt, Test};

/// The truth value on top goes.
fn pop_truth(values: &mut Stack<Value>) -> Result<bool, Halt>
    ensures { Gives (λ truth. (truth, values.new)) result (spec.truth_of values.old) }
{
    let value = pop_one(values)?;
    Ok(value.decided()?)
}

/// The other parts of `&&`, or false.
pub(crate) fn go_on_where_true<'a>(others: &'a [Test], m: &mut Machine<'a>) -> Result<(), Halt>
    ensures { Gives (λ _. state_of m.new) result (spec.by_truth (state_of m.old) (spec.where_true (to_tests (map plain_test others.now)))) }
{
    if pop_truth(&mut m.values)? {
        push_one(Task::AllParts(others), &mut m.work)?;
    } else {
        m.values.push(Value::truth(false))?;
    }
    Ok(())
}

/// The other parts of `||`, or true.
pub(crate) fn go_on_where_false<'a>(others: &'a [Test], m: &mut Machine<'a>) -> Result<(), Halt>
    ensures { Gives (λ _. state_of m.new) result (spec.by_truth (state_of m.old) (spec.where_false (to_tests (map plain_test others.now)))) }
{
    if pop_truth(&mut m.values)? {
        m.values.push(Value::truth(true))?;
    } else {
        push_one(Task::AnyParts(others), &mut m.work)?;
    }
    Ok(())
}

/// One of two blocks.
pub(crate) fn choose<'a>(
    on_true: &'a [CoreStmt],
    on_false: &'a [CoreStmt],
    m: &mut Machine<'a>,
) -> Result<(), Halt>
    ensures { Gives (λ _. state_of m.new) result (spec.by_truth (state_of m.old) (spec.chosen (plain_block on_true.now) (plain_block on_false.now))) }
{
    if pop_truth(&mut m.values)? {
        push_one(Task::Statements(on_true), &mut m.work)?;
    } else {
        push_one(Task::Statements(on_false), &mut m.work)?;
    }
    Ok(())
}

/// One unit of fuel is taken.
pub(crate) fn pay(units: &mut u64) -> Result<(), Halt>
    ensures { Gives (λ _. units.new) result (spec.paid units.old) }
{
    if *units == 0 {
        return Err(Halt::FuelEnded);
    }
    *units -= 1;
    Ok(())
}

/// Where the test of a loop was true, its body and the loop again, for one unit.
pub(crate) fn turn<'a>(
    test: &'a Test,
    body: &'a [CoreStmt],
    m: &mut Machine<'a>,
) -> Result<(), Halt>
    ensures { Gives (λ _. state_of m.new) result (spec.by_truth (state_of m.old) (spec.turned (plain_test test.now) (plain_block body.now))) }
{
    if !pop_truth(&mut m.values)? {
        return Ok(());
    }
    pay(&mut m.units)?;
    push_two(Task::Statements(body), Task::Loop(test, body), &mut m.work)?;
    Ok(())
}

/// The value on top goes to a variable.
pub(crate) fn set_to(x: u32, m: &mut Machine<'_>) -> Result<(), Halt>
    ensures { Gives (λ _. state_of m.new) result (spec.set_to x (state_of m.old)) }
{
    let value = pop_one(&mut m.values)?;
    m.env.set(x, value)?;
    Ok(())
}

/// The parts of the tuple on top go to variables.
pub(crate) fn split_to(xs: &[u32], m: &mut Machine<'_>) -> Result<(), Halt>
    ensures { Gives (λ _. state_of m.new) result (spec.split_to xs.now (state_of m.old)) }
{
    let value = pop_one(&mut m.values)?;
    let parts = m.store.parts(xs.len(), &value)?;
    set_all(&mut m.env, xs, parts)?;
    Ok(())
}

/// The number on top is printed.
pub(crate) fn say(m: &mut Machine<'_>) -> Result<Event, Halt>
    ensures { Gives (λ event. (event_of event, state_of m.new)) result (spec.saying (state_of m.old)) }
{
    let value = pop_one(&mut m.values)?;
    match value.word_in(Tag::Number) {
        Some(number) => Ok(Event::Says(number)),
        None => Err(Halt::Stuck),
    }
}

/// Work goes, up to where the function began; whether it did.
fn unwind(work: &mut Stack<Task<'_>>) -> bool
    ensures back { result ≡ true → spec.unwound (works work.old) ≡ Some (works work.new) }
    ensures main { result ≡ false → spec.unwound (works work.old) ≡ None }
    ensures empty { result ≡ false → works work.new ≡ [] }
{
    while let Some(task) = work.pop() {
        if is_back(task) {
            return true;
        }
    }
    false
}

/// Whether a function began there.
fn is_back(task: Task<'_>) -> bool
    ensures { result ≡ spec.is_back (work_of task.entry) }
{
    match task {
        Task::Back => true,
        Task::Operand(_)
        | Task::Operands(_)
        | Task::Links(_)
        | Task::Join(_)
        | Task::Negate
        | Task::Relate(_)
        | Task::ReadCell
        | Task::Measure
        | Task::MakeTuple(_, _)
        | Task::MakeArray(_)
        | Task::CallWith(_, _)
        | Task::Decide(_)
        | Task::Decided
        | Task::AllParts(_)
        | Task::AnyParts(_)
        | Task::WhereTrue(_)
        | Task::WhereFalse(_)
        | Task::Opposite
        | Task::Statements(_)
        | Task::SetTo(_)
        | Task::SplitTo(_)
        | Task::PutCell
        | Task::Forget
        | Task::Say
        | Task::Choose(_, _)
        | Task::Loop(_, _)
        | Task::Turn(_, _)
        | Task::GiveBack => false,
    }
}

/// The caller goes on with the value.
fn resume(value: Value, m: &mut Machine<'_>) -> Result<(), Halt>
    ensures { Gives (λ _. state_of m.new) result (spec.resumed value (works m.old.work) m.old.callers (state_of m.old)) }
{
    match m.callers.pop() {
        Some(env) => {
            m.env = env;
            m.values.push(value)?;
            Ok(())
        }
        None => Err(Halt::Stuck),
    }
}

/// The function gives the value on top.
pub(crate) fn give_back(m: &mut Machine<'_>) -> Result<Event, Halt>
    ensures { Gives (λ event. (event_of event, state_of m.new)) result (spec.giving (state_of m.old)) }
{
    let value = pop_one(&mut m.values)?;
    if !unwind(&mut m.work) {
        return Ok(Event::Returns(*value.word()));
    }
    resume(value, m)?;
    Ok(Event::Goes)
}
