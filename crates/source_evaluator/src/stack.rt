//! A stack of values.

ghost use Rattle.std.specs.Prelude.{◌≡◌, ◌≤◌, ◌-◌, None, [], ◌∷◌, length, take, drop, reverse, option_to_list, IfOk, ◌++◌};

use std::alloc::{AllocError, Global};
use std::marker::Model;

/// Values of which the last that came is the first that goes. It is seen as their list, the last that came first.
#[derive(Drop)]
pub(crate) struct Stack<T> {
    elements: Vec<T>,
}

impl<T> Model for Stack<T> {
    ghost use Rattle.std.specs.Prelude.{List, reverse};
    ghost use Rattle.std.specs.Coded.{coded_list};

    ghost Value = { List T };

    ghost coded = { coded_list T.code };

    ghost view = { λ stack. reverse stack.elements.items };
}

impl<T: Drop> Stack<T> {
    /// No value. It takes no memory.
    pub(crate) fn new(alloc: Global) -> Stack<T>
        ensures { result ≡ [] }
    {
        Stack {
            elements: Vec::new(alloc),
        }
    }

    /// The value comes before all others.
    #[tactic(auto, using(crate::proofs::Stacks::pushed))]
    pub(crate) fn push(&mut self, value: T) -> Result<(), AllocError>
        ensures { IfOk result (λ _. self.new ≡ value ∷ self.old) }
    {
        self.elements.push(value)?;
        Ok(())
    }

    /// The value that came last goes, where there is one.
    pub(crate) fn pop(&mut self) -> Option<T>
        ensures first { self.old ≡ option_to_list result ++ self.new }
        ensures empty { result ≡ None → self.old ≡ [] }
    {
        self.elements.pop()
    }

    /// How many values there are.
    pub(crate) fn len(&self) -> usize
        ensures { result ≡ length self.now }
    {
        self.elements.len()
    }

    /// The first so many values, in the order in which they came.
    pub(crate) fn last(&self, count: usize) -> &[T]
        requires { count ≤ length self.now }
        ensures { result.now ≡ reverse (take count self.now) }
    {
        last_of(self.elements.as_slice(), count)
    }

    /// The first so many values go.
    pub(crate) fn forget(&mut self, count: usize)
        requires { count ≤ length self.old }
        ensures { self.new ≡ drop count self.old }
    {
        let kept = self.elements.as_slice().len() - count;
        self.elements.truncate(kept);
    }
}

/// The last so many elements.
#[tactic(auto, using(crate::proofs::Stacks::rest_is))]
fn last_of<T>(elements: &[T], count: usize) -> &[T]
    requires { count ≤ length elements.now }
    ensures { result.now ≡ drop (length elements.now - count) elements.now }
{
    &elements[elements.len() - count..]
}
