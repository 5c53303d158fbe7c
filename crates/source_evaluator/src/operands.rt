//! Constructs, by the values on top.

ghost use Rattle.std.specs.Prelude.{◌≡◌, IfOk};
ghost use Rattle.source_values.specs.Halts.{Gives};
ghost use Rattle.source_evaluator.specs.Steps as spec;
ghost use Rattle.source_evaluator.specs.Views.{work_of};

use crate::stack::Stack;
use crate::tasks::Task;
use source_values::{Halt, Store, Value, join, negate, relate};
use std::alloc::{AllocError, Global};
use xanadu_tree::{Op, Rel};

/// Two values, in the order in which they came.
#[derive(Drop)]
pub(crate) struct Two {
    pub(crate) first: Value,
    pub(crate) second: Value,
}

/// Three do.
#[derive(Drop)]
pub(crate) struct Three {
    pub(crate) first: Value,
    pub(crate) second: Value,
    pub(crate) third: Value,
}

/// The value on top goes.
pub(crate) fn pop_one(values: &mut Stack<Value>) -> Result<Value, Halt>
    ensures { Gives (λ v. (v, values.new)) result (spec.one_of values.old) }
{
    match values.pop() {
        Some(value) => Ok(value),
        None => Err(Halt::Stuck),
    }
}

/// The two values on top go.
pub(crate) fn pop_two(values: &mut Stack<Value>) -> Result<Two, Halt>
    ensures { Gives (λ two. (two.first, two.second, values.new)) result (spec.two_of values.old) }
{
    let second = pop_one(values)?;
    let first = pop_one(values)?;
    Ok(Two { first, second })
}

/// The three values on top go.
pub(crate) fn pop_three(values: &mut Stack<Value>) -> Result<Three, Halt>
    ensures { Gives (λ three. (three.first, three.second, three.third, values.new)) result (spec.three_of values.old) }
{
    let third = pop_one(values)?;
    let two = pop_two(values)?;
    Ok(Three {
        first: two.first,
        second: two.second,
        third,
    })
}

/// An operator between the two values on top.
fn join_top(op: Op, values: &mut Stack<Value>) -> Result<(), Halt>
    ensures { Gives (λ _. values.new) result (spec.top_joined op values.old) }
{
    let two = pop_two(values)?;
    let made = join(op, &two.first, &two.second)?;
    values.push(made)?;
    Ok(())
}

/// 0 less the value on top.
fn negate_top(values: &mut Stack<Value>) -> Result<(), Halt>
    ensures { Gives (λ _. values.new) result (spec.top_negated values.old) }
{
    let value = pop_one(values)?;
    let made = negate(&value)?;
    values.push(made)?;
    Ok(())
}

/// A comparison of the two values on top.
fn relate_top(rel: Rel, values: &mut Stack<Value>) -> Result<(), Halt>
    ensures { Gives (λ _. values.new) result (spec.top_related rel values.old) }
{
    let two = pop_two(values)?;
    let made = relate(rel, &two.first, &two.second)?;
    values.push(made)?;
    Ok(())
}

/// A cell of an array.
fn load_top(store: &Store, values: &mut Stack<Value>) -> Result<(), Halt>
    ensures { Gives (λ _. values.new) result (spec.top_loaded store.now values.old) }
{
    let two = pop_two(values)?;
    let made = store.load(&two.first, &two.second)?;
    values.push(made)?;
    Ok(())
}

/// The length of an array.
fn measure_top(store: &Store, values: &mut Stack<Value>) -> Result<(), Halt>
    ensures { Gives (λ _. values.new) result (spec.top_measured store.now values.old) }
{
    let value = pop_one(values)?;
    let made = store.measure(&value)?;
    values.push(made)?;
    Ok(())
}

/// A truth value, or the other one.
fn decide_top(opposite: bool, values: &mut Stack<Value>) -> Result<(), Halt>
    ensures { Gives (λ _. values.new) result (spec.top_decided opposite values.old) }
{
    let value = pop_one(values)?;
    let truth = value.decided()?;
    let made = if opposite { !truth } else { truth };
    values.push(Value::truth(made))?;
    Ok(())
}

/// The value on top is not used.
fn forget_top(values: &mut Stack<Value>) -> Result<(), Halt>
    ensures { Gives (λ _. values.new) result (spec.top_forgotten values.old) }
{
    let _value = pop_one(values)?;
    Ok(())
}

/// A construct that changes nothing but the values on top.
#[tactic(auto, unfolding(crate::specs::Steps::acted))]
pub(crate) fn act(task: Task<'_>, store: &Store, values: &mut Stack<Value>) -> Result<(), Halt>
    ensures { Gives (λ _. values.new) result (spec.acted (work_of task.entry) store.now values.old) }
{
    match task {
        Task::Join(op) => join_top(op, values),
        Task::Negate => negate_top(values),
        Task::Relate(rel) => relate_top(rel, values),
        Task::ReadCell => load_top(store, values),
        Task::Measure => measure_top(store, values),
        Task::Decided => decide_top(false, values),
        Task::Opposite => decide_top(true, values),
        Task::Forget => forget_top(values),
        Task::Operand(_)
        | Task::Operands(_)
        | Task::Links(_)
        | Task::MakeTuple(_, _)
        | Task::MakeArray(_)
        | Task::CallWith(_, _)
        | Task::Decide(_)
        | Task::AllParts(_)
        | Task::AnyParts(_)
        | Task::WhereTrue(_)
        | Task::WhereFalse(_)
        | Task::Statements(_)
        | Task::SetTo(_)
        | Task::SplitTo(_)
        | Task::PutCell
        | Task::Say
        | Task::Choose(_, _)
        | Task::Loop(_, _)
        | Task::Turn(_, _)
        | Task::GiveBack
        | Task::Back => Err(Halt::Stuck),
    }
}

/// A tuple of the values on top.
fn tuple_top(
    ty: u32,
    count: usize,
    store: &mut Store,
    values: &mut Stack<Value>,
) -> Result<(), Halt>
    ensures { Gives (λ _. (values.new, store.new)) result (spec.tuple_on_top ty count store.old values.old) }
{
    let parts = take_values(*store.allocator(), count, values)?;
    let made = store.make_tuple(ty, parts)?;
    values.push(made)?;
    Ok(())
}

/// An array, by its length and what is in each cell.
fn array_top(ty: u32, store: &mut Store, values: &mut Stack<Value>) -> Result<(), Halt>
    ensures { Gives (λ _. (values.new, store.new)) result (spec.array_on_top ty store.old values.old) }
{
    let two = pop_two(values)?;
    let made = store.make_array(ty, &two.first, &two.second)?;
    values.push(made)?;
    Ok(())
}

/// A value goes to a cell of an array.
fn put_top(store: &mut Store, values: &mut Stack<Value>) -> Result<(), Halt>
    ensures { Gives (λ _. (values.new, store.new)) result (spec.cell_put store.old values.old) }
{
    let three = pop_three(values)?;
    store.put(&three.first, &three.second, &three.third)?;
    Ok(())
}

/// Equal values in a vector of their own.
fn copied(alloc: Global, values: &[Value]) -> Result<Vec<Value>, AllocError>
    ensures { IfOk result (λ copied. copied.items ≡ values.now) }
{
    let mut copied = Vec::new(alloc);
    for value in values {
        copied.push(value.copy())?;
    }
    Ok(copied)
}

/// So many values on top go, in the order in which they came.
pub(crate) fn take_values(
    alloc: Global,
    count: usize,
    values: &mut Stack<Value>,
) -> Result<Vec<Value>, Halt>
    ensures { Gives (λ taken. (taken.items, values.new)) result (spec.taken count values.old) }
{
    if count > values.len() {
        return Err(Halt::Stuck);
    }
    let taken = copied(alloc, values.last(count))?;
    values.forget(count);
    Ok(taken)
}

/// A construct that makes a block or writes to one.
#[tactic(auto, unfolding(crate::specs::Steps::allocated))]
pub(crate) fn allocate(
    task: Task<'_>,
    store: &mut Store,
    values: &mut Stack<Value>,
) -> Result<(), Halt>
    ensures { Gives (λ _. (values.new, store.new)) result (spec.allocated (work_of task.entry) store.old values.old) }
{
    match task {
        Task::MakeTuple(ty, count) => tuple_top(ty, count, store, values),
        Task::MakeArray(ty) => array_top(ty, store, values),
        Task::PutCell => put_top(store, values),
        Task::Operand(_)
        | Task::Operands(_)
        | Task::Links(_)
        | Task::Join(_)
        | Task::Negate
        | Task::Relate(_)
        | Task::ReadCell
        | Task::Measure
        | Task::CallWith(_, _)
        | Task::Decide(_)
        | Task::Decided
        | Task::AllParts(_)
        | Task::AnyParts(_)
        | Task::WhereTrue(_)
        | Task::WhereFalse(_)
        | Task::Opposite
        | Task::Statements(_)
        | Task::SetTo(_)
        | Task::SplitTo(_)
        | Task::Forget
        | Task::Say
        | Task::Choose(_, _)
        | Task::Loop(_, _)
        | Task::Turn(_, _)
        | Task::GiveBack
        | Task::Back => Err(Halt::Stuck),
    }
}
