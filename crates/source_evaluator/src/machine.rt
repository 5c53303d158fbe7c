//! A run as it stands.

ghost use Rattle.std.specs.Prelude.{◌≡◌, ◌∷◌, IfOk};
ghost use Rattle.source_evaluator.specs.Views.{work_of, works};

use crate::stack::Stack;
use crate::tasks::Task;
use source_values::{Store, Value, Variables};
use std::alloc::AllocError;

/// What a step tells.
#[derive(Clone, Copy, Drop)]
pub(crate) enum Event {
    /// The run goes on.
    Goes,
    /// A number is printed.
    Says(i64),
    /// `main` has returned.
    Returns(i64),
}

/// A run as it stands.
#[derive(Drop)]
pub(crate) struct Machine<'a> {
    pub(crate) work: Stack<Task<'a>>,
    pub(crate) values: Stack<Value>,
    pub(crate) env: Variables,
    pub(crate) callers: Stack<Variables>,
    pub(crate) units: u64,
    pub(crate) store: Store,
}

/// A piece of work comes before all others.
pub(crate) fn push_one<'a>(task: Task<'a>, work: &mut Stack<Task<'a>>) -> Result<(), AllocError>
    ensures { IfOk result (λ _. works work.new ≡ work_of task.entry ∷ works work.old) }
{
    work.push(task)
}

/// Two pieces of work do.
pub(crate) fn push_two<'a>(
    first: Task<'a>,
    second: Task<'a>,
    work: &mut Stack<Task<'a>>,
) -> Result<(), AllocError>
    ensures { IfOk result (λ _. works work.new ≡ work_of first.entry ∷ work_of second.entry ∷ works work.old) }
{
    work.push(second)?;
    work.push(first)
}

/// Three do.
pub(crate) fn push_three<'a>(
    first: Task<'a>,
    second: Task<'a>,
    third: Task<'a>,
    work: &mut Stack<Task<'a>>,
) -> Result<(), AllocError>
    ensures { IfOk result (λ _. works work.new ≡ work_of first.entry ∷ work_of second.entry ∷ work_of third.entry ∷ works work.old) }
{
    work.push(third)?;
    push_two(first, second, work)
}

/// Four do.
pub(crate) fn push_four<'a>(
    first: Task<'a>,
    second: Task<'a>,
    third: Task<'a>,
    fourth: Task<'a>,
    work: &mut Stack<Task<'a>>,
) -> Result<(), AllocError>
    ensures { IfOk result (λ _.
        works work.new ≡ work_of first.entry ∷ work_of second.entry ∷ work_of third.entry ∷ work_of fourth.entry ∷ works work.old) }
{
    work.push(fourth)?;
    push_three(first, second, third, work)
}
