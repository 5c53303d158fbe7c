//! The form and its calls.
ghost use Rattle.std.specs.Prelude.{◌≡◌, ◌↔◌, length, ◌≤◌, ◌++◌, OnOk, OnErr, IfErr, IsTrue};
ghost use Rattle.xan_lin.specs.Terms.{IsRising};
ghost use Rattle.xan_lin.specs.Text.{form_text};
ghost use Rattle.xan_lin.specs.Linear.{are_within, sized, sum_of, difference_of, excess_of, form_of, product_of, negated_row_of, variable_form, NamesBelow};
ghost use Rattle.std.specs.Bool.{Decides};
ghost use Rattle.std.specs.Cmp.Lexicographic.{pointwise};
ghost use Rattle.xan_lin.specs.Same.{same_term, same_form};
ghost use Rattle.xan_lin.specs.Value.{value_of, Holds};
ghost use Rattle.xan_lin.specs.Subst.{VariablesRise, subst_of};

use crate::bound::all_are_small;
use crate::evaluate::value_of_all;
use crate::gather::gathered;
use crate::merge::{
    below_negated, held, merged, negated, number_difference, number_excess, number_sum,
};
use crate::replace::constant_after;
use crate::replaced_sum::replaced_sum;
use crate::scale::{product, scaled};
use crate::term::{MOST_TERMS, Memory, Term, TooLarge};
use crate::text::{put_number, put_terms};
use crate::wide::{cut_wide, is_negative, is_zero, less_word};
use arrayvec::ArrayVec;
use std::marker::Model;

/// A linear form: at most 16 terms by rising variable, none with the coefficient 0, and a constant. Each number has a magnitude of at
/// most `BOUND`. It is seen as the list of its terms and its constant.
#[derive(Drop)]
pub struct Form {
    terms: ArrayVec<Term, 16>,
    constant: i64,
}

impl Model for Form {
    ghost use Rattle.xan_lin.specs.Linear.{Linear, IsForm};

    ghost Value = { Linear };

    ghost view = { λ form. record { terms = form.terms.items; constant = form.constant } };

    ghost invariant = { λ form. IsForm (record { terms = form.terms.items; constant = form.constant }) };
}

impl Form {
    /// The sum of the terms and the constant. Variables may repeat, in any order. `Terms` comes exactly where the sum has more than 16
    /// terms, `Magnitude` exactly where it has not and a number of it is past `BOUND`.
    pub fn from_terms(terms: &[Term], constant: i64) -> Result<Form, TooLarge>
        ensures { result ≡ form_of terms.now constant }
    {
        let sum = gathered(terms);
        sized_form(sum.as_slice(), &constant)
    }

    /// The form that is the variable.
    pub fn variable(v: u32) -> Form
        ensures { result ≡ variable_form v }
    {
        let mut terms = ArrayVec::new();
        terms.push(Term { var: v, coef: 1 });
        Form { terms, constant: 0 }
    }

    /// An equal form.
    pub fn copy(&self) -> Form
        ensures { result ≡ self.now }
    {
        Form {
            terms: held(self.terms.as_slice()),
            constant: self.constant,
        }
    }

    /// Its terms, by rising variable.
    pub fn terms(&self) -> &[Term]
        ensures terms { result.now ≡ self.now.terms }
        ensures rising { IsRising 0 result.now }
        ensures few { length result.now ≤ 16 }
        ensures small { IsTrue (are_within self.now.terms self.now.constant) }
    {
        self.terms.as_slice()
    }

    /// Its constant.
    pub fn constant_part(&self) -> i64
        ensures { result ≡ self.now.constant }
    {
        self.constant
    }

    /// The sum. `Terms` comes exactly where it has more than 16 terms, `Magnitude` exactly where it has not and a number of it is past
    /// `BOUND`.
    pub fn add(&self, other: &Form) -> Result<Form, TooLarge>
        ensures { result ≡ sum_of self.now other.now }
    {
        let terms = merged(self.terms.as_slice(), other.terms.as_slice());
        let constant = number_sum(&self.constant, &other.constant);
        sized_form(terms.as_slice(), &constant)
    }

    /// The difference. `Terms` and `Magnitude` come as at `add`.
    pub fn sub(&self, other: &Form) -> Result<Form, TooLarge>
        ensures { result ≡ difference_of self.now other.now }
    {
        let turned = negated(other.terms.as_slice());
        let terms = merged(self.terms.as_slice(), turned.as_slice());
        let constant = number_difference(&self.constant, &other.constant);
        sized_form(terms.as_slice(), &constant)
    }

    /// Appends the spelling, as `+2v0-1v3+0`. Where memory runs out nothing is appended.
    pub fn write_form(&self, out: &mut Vec<u8>) -> Result<(), Memory>
        ensures written { OnOk result (out.new.items ≡ out.old.items ++ form_text self.now) }
        ensures unchanged { OnErr result (out.new.items ≡ out.old.items) }
    {
        let mut text = ArrayVec::new();
        put_terms(&mut text, self.terms.as_slice());
        put_number(&mut text, &self.constant);
        let Ok(()) = out.extend_from_slice(text.as_slice()) else {
            return Err(Memory);
        };
        Ok(())
    }

    /// The product by a number. It has at most as many terms as the form, so that only `Magnitude` comes, exactly where a number of it
    /// is past `BOUND`.
    pub fn scale(&self, by: i64) -> Result<Form, TooLarge>
        ensures { result ≡ product_of self.now by }
    {
        let Some(constant) = product(&self.constant, &by) else {
            return Err(TooLarge::Magnitude);
        };
        let Some(terms) = scaled(self.terms.as_slice(), &by) else {
            return Err(TooLarge::Magnitude);
        };
        Ok(Form { terms, constant })
    }

    /// The row `-e - 1` for the row `e`: it holds exactly where `e` does not. It has as many terms as `e`, so that only `Magnitude`
    /// comes, exactly where a number of it is past `BOUND`.
    pub fn negated_row(&self) -> Result<Form, TooLarge>
        ensures exact { result ≡ negated_row_of self.now }
        ensures large { IfErr result (λ error. error ≡ TooLarge.Magnitude) }
    {
        let terms = negated(self.terms.as_slice());
        let constant = below_negated(&self.constant);
        sized_form(terms.as_slice(), &constant)
    }

    /// The row `e - f - 1` for the forms `e` and `f`: it holds exactly where `e` is greater than `f`. `Terms` and `Magnitude` come as at
    /// `add`, by this row alone: the difference may be past the bound.
    #[tactic(auto, unfolding(crate::specs::Linear::excess_of))]
    pub fn excess_row(&self, other: &Form) -> Result<Form, TooLarge>
        ensures { result ≡ excess_of self.now other.now }
    {
        let turned = negated(other.terms.as_slice());
        let terms = merged(self.terms.as_slice(), turned.as_slice());
        let constant = number_excess(&self.constant, &other.constant);
        sized_form(terms.as_slice(), &constant)
    }

    /// Whether the forms are equal.
    pub fn is_same(&self, other: &Form) -> bool
        ensures test { result ≡ same_form self.now other.now }
        ensures equal { Decides result (self.now ≡ other.now) }
    {
        are_same(self, other)
    }

    /// The form in which all listed variables are replaced at once, each by the form that stands beside it. A variable that is not
    /// listed stays where it is less than `below`, and becomes 0 elsewhere. The listed variables rise. `Terms` and `Magnitude` come as
    /// at `add`.
    pub fn subst(&self, values: &[(u32, Form)], below: u32) -> Result<Form, TooLarge>
        requires { VariablesRise 0 values.now }
        ensures { result ≡ subst_of values.now below self.now }
    {
        let terms = replaced_sum(self.terms.as_slice(), values, below);
        let constant = constant_after(self.terms.as_slice(), &self.constant, values, below);
        sized_form(terms.as_slice(), &cut_wide(&constant))
    }

    /// Whether the row holds, which it does where its exact value is at least 0. The number of a variable is its place in `values`.
    pub fn eval_row(&self, values: &[i64]) -> bool
        requires { NamesBelow (length values.now) self.now }
        ensures { IsTrue result ↔ Holds values.now self.now }
    {
        let value = value_of_all(self.terms.as_slice(), &self.constant, values);
        !is_negative(&value)
    }

    /// Whether the exact value is the word. The number of a variable is its place in `values`.
    pub fn eval_is(&self, values: &[i64], word: i64) -> bool
        requires { NamesBelow (length values.now) self.now }
        ensures { IsTrue result ↔ (value_of values.now self.now ≡ word) }
    {
        let value = value_of_all(self.terms.as_slice(), &self.constant, values);
        is_zero(&less_word(&value, &word))
    }
}

// The form of an exact result, where it is within the bounds.
fn sized_form(terms: &[Term], constant: &i64) -> Result<Form, TooLarge>
    requires { IsRising 0 terms.now }
    ensures { result ≡ sized terms.now constant.now }
{
    if terms.len() > MOST_TERMS {
        return Err(TooLarge::Terms);
    }
    let fits = all_are_small(terms, constant);
    if !fits {
        return Err(TooLarge::Magnitude);
    }
    Ok(Form {
        terms: held(terms),
        constant: *constant,
    })
}

// Whether the terms are equal.
fn are_same_terms(left: &[Term], right: &[Term]) -> bool
    ensures { result ≡ pointwise same_term left.now right.now }
{
    left == right
}

// Whether the forms are equal.
fn are_same(left: &Form, right: &Form) -> bool
    ensures { result ≡ same_form left.now right.now }
{
    left.constant == right.constant && are_same_terms(left.terms.as_slice(), right.terms.as_slice())
}
