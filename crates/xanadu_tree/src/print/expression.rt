//! The text of expressions, a function for each production.

ghost use Rattle.std.specs.Prelude.{◌≡◌, ◌++◌, OnOk};
ghost use Rattle.xanadu_tree.specs.Printing.{expression_text, conjunctions_text, conjunction_text, negations_text, negation_text, comparison_text, comparand_text, sum_text, addends_text, product_text, factors_text, unary_text, postfix_text, indices_text, primary_text, arguments_text, call_text, group_text};

use crate::expr::{Op, Rel};
use crate::print::token::{
    put_comma_unless, put_element, put_lower, put_mark, put_mark_if, put_number, put_op, put_rel,
    put_upper, put_word, truth_keyword,
};
use crate::tree::{
    Comparison, Conjunction, Expression, Negation, Postfix, Primary, Product, Sum, Unary,
};
use xan_io::Memory;
use xanadu_lexer::{Keyword, Symbol};

#[cycle(print_expression)]
#[tactic(auto, using(crate::proofs::Texts::expression_texts))]
pub(super) fn put_expression(out: &mut Vec<u8>, e: &Expression) -> Result<(), Memory>
    ensures { OnOk result (out.new.items ≡ out.old.items ++ expression_text e.now) }
{
    put_conjunction(out, &e.first)?;
    put_conjunctions(out, e.rest.as_slice())
}

#[cycle(print_expression)]
#[tactic(auto, using(crate::proofs::Texts::expression_texts))]
fn put_conjunctions(out: &mut Vec<u8>, conjunctions: &[(Conjunction, u32)]) -> Result<(), Memory>
    ensures { OnOk result (out.new.items ≡ out.old.items ++ conjunctions_text conjunctions.now) }
{
    for (conjunction, _) in conjunctions {
        put_mark(out, Symbol::Or)?;
        put_conjunction(out, conjunction)?;
    }
    Ok(())
}

#[cycle(print_expression)]
#[tactic(auto, using(crate::proofs::Texts::expression_texts))]
fn put_conjunction(out: &mut Vec<u8>, c: &Conjunction) -> Result<(), Memory>
    ensures { OnOk result (out.new.items ≡ out.old.items ++ conjunction_text c.now) }
{
    put_negation(out, &c.first)?;
    put_negations(out, c.rest.as_slice())
}

#[cycle(print_expression)]
#[tactic(auto, using(crate::proofs::Texts::expression_texts))]
fn put_negations(out: &mut Vec<u8>, negations: &[(Negation, u32)]) -> Result<(), Memory>
    ensures { OnOk result (out.new.items ≡ out.old.items ++ negations_text negations.now) }
{
    for (negation, _) in negations {
        put_mark(out, Symbol::And)?;
        put_negation(out, negation)?;
    }
    Ok(())
}

#[cycle(print_expression)]
#[tactic(auto, using(crate::proofs::Texts::expression_texts))]
fn put_negation(out: &mut Vec<u8>, n: &Negation) -> Result<(), Memory>
    ensures { OnOk result (out.new.items ≡ out.old.items ++ negation_text n.now) }
{
    put_mark_if(out, n.negated, Symbol::Not)?;
    put_comparison(out, &n.operand)
}

#[cycle(print_expression)]
#[tactic(auto, using(crate::proofs::Texts::expression_texts))]
fn put_comparison(out: &mut Vec<u8>, c: &Comparison) -> Result<(), Memory>
    ensures { OnOk result (out.new.items ≡ out.old.items ++ comparison_text c.now) }
{
    put_sum(out, &c.left)?;
    put_comparand(out, &c.right)
}

#[cycle(print_expression)]
#[tactic(auto, using(crate::proofs::Texts::expression_texts))]
fn put_comparand(out: &mut Vec<u8>, right: &Option<(Rel, Box<Sum>)>) -> Result<(), Memory>
    ensures { OnOk result (out.new.items ≡ out.old.items ++ comparand_text right.now) }
{
    match right {
        None => Ok(()),
        Some((rel, sum)) => {
            put_rel(out, *rel)?;
            put_sum(out, sum)
        }
    }
}

#[cycle(print_expression)]
#[tactic(auto, using(crate::proofs::Texts::expression_texts))]
fn put_sum(out: &mut Vec<u8>, s: &Sum) -> Result<(), Memory>
    ensures { OnOk result (out.new.items ≡ out.old.items ++ sum_text s.now) }
{
    put_product(out, &s.first)?;
    put_addends(out, s.rest.as_slice())
}

#[cycle(print_expression)]
#[tactic(auto, using(crate::proofs::Texts::expression_texts))]
fn put_addends(out: &mut Vec<u8>, addends: &[(Op, Product, u32)]) -> Result<(), Memory>
    ensures { OnOk result (out.new.items ≡ out.old.items ++ addends_text addends.now) }
{
    for (op, product, _) in addends {
        put_op(out, *op)?;
        put_product(out, product)?;
    }
    Ok(())
}

#[cycle(print_expression)]
#[tactic(auto, using(crate::proofs::Texts::expression_texts))]
fn put_product(out: &mut Vec<u8>, p: &Product) -> Result<(), Memory>
    ensures { OnOk result (out.new.items ≡ out.old.items ++ product_text p.now) }
{
    put_unary(out, &p.first)?;
    put_factors(out, p.rest.as_slice())
}

#[cycle(print_expression)]
#[tactic(auto, using(crate::proofs::Texts::expression_texts))]
fn put_factors(out: &mut Vec<u8>, factors: &[(Op, Unary, u32)]) -> Result<(), Memory>
    ensures { OnOk result (out.new.items ≡ out.old.items ++ factors_text factors.now) }
{
    for (op, unary, _) in factors {
        put_op(out, *op)?;
        put_unary(out, unary)?;
    }
    Ok(())
}

#[cycle(print_expression)]
#[tactic(auto, using(crate::proofs::Texts::expression_texts))]
fn put_unary(out: &mut Vec<u8>, u: &Unary) -> Result<(), Memory>
    ensures { OnOk result (out.new.items ≡ out.old.items ++ unary_text u.now) }
{
    put_mark_if(out, u.negative, Symbol::Minus)?;
    put_postfix(out, &u.operand)
}

#[cycle(print_expression)]
#[tactic(auto, using(crate::proofs::Texts::expression_texts))]
fn put_postfix(out: &mut Vec<u8>, p: &Postfix) -> Result<(), Memory>
    ensures { OnOk result (out.new.items ≡ out.old.items ++ postfix_text p.now) }
{
    put_primary(out, &p.primary)?;
    put_indices(out, p.indices.as_slice())
}

#[cycle(print_expression)]
#[tactic(auto, using(crate::proofs::Texts::expression_texts))]
pub(super) fn put_indices(out: &mut Vec<u8>, indices: &[(Expression, u32)]) -> Result<(), Memory>
    ensures { OnOk result (out.new.items ≡ out.old.items ++ indices_text indices.now) }
{
    for (index, _) in indices {
        put_mark(out, Symbol::LeftBracket)?;
        put_expression(out, index)?;
        put_mark(out, Symbol::RightBracket)?;
    }
    Ok(())
}

#[cycle(print_expression)]
#[tactic(auto, using(crate::proofs::Texts::expression_texts))]
fn put_primary(out: &mut Vec<u8>, primary: &Primary) -> Result<(), Memory>
    ensures { OnOk result (out.new.items ≡ out.old.items ++ primary_text primary.now) }
{
    match primary {
        Primary::Number(number, _) => put_number(out, number),
        Primary::Truth(truth, _) => put_word(out, truth_keyword(*truth)),
        Primary::Variable(name) => put_lower(out, name),
        Primary::Call(function, arguments) => {
            put_lower(out, function)?;
            put_call(out, arguments.as_slice())
        }
        Primary::Make(ty, arguments) => {
            put_upper(out, ty)?;
            put_call(out, arguments.as_slice())
        }
        Primary::Length(array, _) => {
            put_word(out, Keyword::Len)?;
            put_group(out, array)
        }
        Primary::New {
            element,
            length,
            fill,
            ..
        } => {
            put_word(out, Keyword::New)?;
            put_element(out, element)?;
            put_mark(out, Symbol::LeftBracket)?;
            put_expression(out, length)?;
            put_mark(out, Symbol::RightBracket)?;
            put_group(out, fill)
        }
        Primary::Group(e, _) => put_group(out, e),
    }
}

/// An expression in parentheses.
#[cycle(print_expression)]
#[tactic(auto, using(crate::proofs::Texts::expression_texts))]
pub(super) fn put_group(out: &mut Vec<u8>, e: &Expression) -> Result<(), Memory>
    ensures { OnOk result (out.new.items ≡ out.old.items ++ group_text e.now) }
{
    put_mark(out, Symbol::LeftParen)?;
    put_expression(out, e)?;
    put_mark(out, Symbol::RightParen)
}

/// Arguments in parentheses.
#[cycle(print_expression)]
#[tactic(auto, using(crate::proofs::Texts::expression_texts))]
pub(super) fn put_call(out: &mut Vec<u8>, arguments: &[Expression]) -> Result<(), Memory>
    ensures { OnOk result (out.new.items ≡ out.old.items ++ call_text arguments.now) }
{
    put_mark(out, Symbol::LeftParen)?;
    put_arguments(out, arguments)?;
    put_mark(out, Symbol::RightParen)
}

#[cycle(print_expression)]
#[tactic(auto, using(crate::proofs::Texts::expression_texts))]
fn put_arguments(out: &mut Vec<u8>, arguments: &[Expression]) -> Result<(), Memory>
    ensures { OnOk result (out.new.items ≡ out.old.items ++ arguments_text arguments.now) }
{
    let mut is_first = true;
    for argument in arguments {
        put_comma_unless(out, is_first)?;
        put_expression(out, argument)?;
        is_first = false;
    }
    Ok(())
}
