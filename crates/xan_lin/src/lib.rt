//! Exact linear forms over numbered variables.
//!
//! A [`Form`] is a sum of terms and a constant. Every call is exact: it answers the form that the integers give, or says by which bound
//! that form is too large. The crate stands on `xan_seq`, `arrayvec` and `itoa`, and no call but `write_form` takes memory.
#![tactic(auto)]

mod bound;
mod evaluate;
mod form;
mod gather;
mod laws;
mod lookup;
mod merge;
mod number;
mod product_sum;
mod replace;
mod replaced_sum;
mod scale;
mod term;
mod text;
mod wide;

pub use crate::form::Form;
pub use crate::laws::{
    difference_subtracts_the_values, excess_takes_the_difference_less_one,
    negated_row_turns_the_value, product_multiplies_the_value, subst_takes_given_values,
    subst_takes_the_values, sum_adds_the_values, terms_add_their_values,
};
pub use crate::number::combine_numbers;
pub use crate::term::{BOUND, LimitKind, Memory, Term, TooLarge};
