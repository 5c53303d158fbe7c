//! What stands for the terms of a form when each variable is replaced.
ghost use Rattle.std.specs.Prelude.{◌≡◌, ◌+◌, ◌≤◌, ◌+ℤ◌, [], ◌++◌, length};
ghost use Rattle.arrayvec.specs.ArrayVec.{array_vec_len};
ghost use Rattle.xan_lin.specs.Products.{product_terms};
ghost use Rattle.xan_lin.specs.Subst.{VariablesRise, replacement, multiples, replaced_terms, replaced_constant};
ghost use Rattle.xan_lin.specs.Wide.{whole, IsSumOf};

use crate::form::Form;
use crate::lookup::form_of_variable;
use crate::term::Term;
use crate::wide::{Wide, plus_product, widened};
use arrayvec::ArrayVec;

// A term of a form that stands for a variable, and what it is multiplied by.
#[derive(Clone, Copy, Drop, Default)]
pub(crate) struct Product {
    pub(crate) var: u32,
    pub(crate) by: i64,
    pub(crate) coef: i64,
}

// Puts the terms behind the others, each times a number.
fn push_products<const N: usize>(made: &mut ArrayVec<Product, N>, by: &i64, terms: &[Term])
    requires { array_vec_len made.old + length terms.now ≤ N }
    ensures terms { product_terms made.new.items ≡ product_terms made.old.items ++ multiples by.now terms.now }
    ensures len { array_vec_len made.new ≡ array_vec_len made.old + length terms.now }
{
    for term in terms {
        made.push(Product {
            var: term.var,
            by: *by,
            coef: term.coef,
        });
    }
}

// Puts what stands for a term behind the others.
fn push_replaced<const N: usize>(
    made: &mut ArrayVec<Product, N>,
    term: &Term,
    values: &[(u32, Form)],
    below: u32,
)
    requires room { array_vec_len made.old + length (replacement values.now below term.now.var).terms ≤ N }
    requires rising { VariablesRise 0 values.now }
    ensures terms { product_terms made.new.items ≡ product_terms made.old.items ++ multiples term.now.coef (replacement values.now below term.now.var).terms }
    ensures len { array_vec_len made.new ≡ array_vec_len made.old + length (replacement values.now below term.now.var).terms }
{
    if let Some(form) = form_of_variable(values, term.var) {
        push_products(made, &term.coef, form.terms());
    } else if term.var < below {
        push_products(
            made,
            &term.coef,
            &[Term {
                var: term.var,
                coef: 1,
            }],
        );
    }
}

// Puts what stands for the terms into an empty vector.
pub(crate) fn push_all_replaced<const N: usize>(
    made: &mut ArrayVec<Product, N>,
    terms: &[Term],
    values: &[(u32, Form)],
    below: u32,
)
    requires empty { made.old.items ≡ [] }
    requires room { length (replaced_terms values.now below terms.now) ≤ N }
    requires rising { VariablesRise 0 values.now }
    ensures { product_terms made.new.items ≡ replaced_terms values.now below terms.now }
{
    for term in terms {
        push_replaced(made, term, values, below);
    }
}

// How many terms stand for a variable.
fn count_for_variable(values: &[(u32, Form)], below: u32, var: u32) -> usize
    requires { VariablesRise 0 values.now }
    ensures exact { result ≡ length (replacement values.now below var).terms }
    ensures few { result ≤ 16 }
{
    match form_of_variable(values, var) {
        Some(form) => form.terms().len(),
        None if var < below => 1,
        None => 0,
    }
}

// How many terms stand for the terms.
pub(crate) fn count_replaced(terms: &[Term], values: &[(u32, Form)], below: u32) -> usize
    requires few { length terms.now ≤ 16 }
    requires rising { VariablesRise 0 values.now }
    ensures exact { result ≡ length (replaced_terms values.now below terms.now) }
    ensures few { result ≤ 256 }
{
    let mut count = 0;
    for term in terms {
        count += count_for_variable(values, below, term.var);
    }
    count
}

// The constant of what stands for a variable.
fn constant_of_variable(values: &[(u32, Form)], below: u32, var: u32) -> i64
    requires { VariablesRise 0 values.now }
    ensures { result ≡ (replacement values.now below var).constant }
{
    match form_of_variable(values, var) {
        Some(form) => form.constant_part(),
        None => 0,
    }
}

// The constants that come with the terms, and the constant.
pub(crate) fn constant_after(
    terms: &[Term],
    constant: &i64,
    values: &[(u32, Form)],
    below: u32,
) -> Wide
    requires few { length terms.now ≤ 16 }
    requires rising { VariablesRise 0 values.now }
    ensures exact { whole result ≡ replaced_constant values.now below terms.now +ℤ constant.now }
    ensures small { IsSumOf 17 result }
{
    let mut value = widened(constant);
    for term in terms {
        let each = constant_of_variable(values, below, term.var);
        value = plus_product(&value, &term.coef, &each);
    }
    value
}
