//! A `Vec` that contracts see as the list of its elements.
//!
//! A contract that compares a whole value with what a definition computes must not see where the value lies in memory.
//! So each field of our types that is a collection is a [`Seq`]: two of them are equal exactly where their elements are.
//! It promises that a `Vec` goes in and comes out as it was, and stands on nothing.
#![tactic(auto)]

ghost use Rattle.std.specs.Prelude.{◌≡◌};

use std::marker::Model;

/// A list of values, kept in a `Vec`. It is made of one and gives it back, both without memory.
#[derive(Drop)]
pub struct Seq<T> {
    elements: Vec<T>,
}

impl<T> Model for Seq<T> {
    ghost use Rattle.std.specs.Prelude.{List};
    ghost use Rattle.std.specs.Coded.{coded_list};

    ghost Value = { List T };

    ghost coded = { coded_list T.code };

    ghost view = { λ seq. seq.elements.items };
}

impl<T> Seq<T> {
    /// The list of the elements of `elements`, which it takes over.
    pub fn from_vec(elements: Vec<T>) -> Seq<T>
        ensures { result ≡ elements.items }
    {
        Seq { elements }
    }

    /// The `Vec` that holds the elements.
    pub fn into_vec(self) -> Vec<T>
        ensures { result.items ≡ self }
    {
        let Seq { elements } = self;
        elements
    }

    /// The elements, in order.
    pub fn as_slice(&self) -> &[T]
        ensures { result.now ≡ self.now }
    {
        self.elements.as_slice()
    }
}
