//! Rules of arithmetic.

ghost use Rattle.std.specs.Prelude.{◌≡◌, [], ◌∷◌, Ok, IfOk, pos};
ghost use Rattle.operation_rules.specs.Answers.{Gives, and_then};
ghost use Rattle.operation_rules.specs.Faults.{needed};
ghost use Rattle.operation_rules.specs.Forms.{constant_form, number_of};
ghost use Rattle.operation_rules.specs.Rules as spec;
ghost use Rattle.xan_lin.specs.Linear.{difference_of};

use crate::error::RuleError;
use crate::forms::{number_of, one_form, quotient_rows, remainder_rows};
use crate::operands::two_numbers;
use crate::rule::{Rule, gives_fresh, gives_number};
use state_types::Ty;
use std::alloc::Global;
use xan_lin::{Form, Memory};

/// The product, where one of the forms is a number; else nothing is known of it.
pub(crate) fn product(alloc: Global, first: u32, f: &Form, g: &Form) -> Result<Rule, Memory>
    ensures { IfOk result (λ rule. rule ≡ spec.product first f.now (number_of f.now) g.now (number_of g.now)) }
{
    if let Some(by) = number_of(g) {
        return gives_number(alloc, first, f.scale(by));
    }
    match number_of(f) {
        Some(by) => gives_number(alloc, first, g.scale(by)),
        None => gives_fresh(alloc, first, Vec::new(alloc), Vec::new(alloc)),
    }
}

// The divisor is at least 1.
fn divisor_rows(alloc: Global, g: &Form) -> Result<Vec<Form>, RuleError>
    ensures { Gives (λ rows. rows.items) result (and_then (needed (difference_of g.now (constant_form (pos 1)))) (λ row. Ok (row ∷ []))) }
{
    let row = g.sub(&one_form())?;
    let mut rows = Vec::new(alloc);
    rows.push(row)?;
    Ok(rows)
}

/// The quotient is a fresh variable.
#[tactic(auto, unfolding(crate::specs::Rules::quotient))]
pub(crate) fn quotient(alloc: Global, types: &[Ty], first: u32) -> Result<Rule, RuleError>
    ensures { Gives (λ rule. rule) result (spec.quotient first types.now) }
{
    let (f, g) = two_numbers(types)?;
    let demands = divisor_rows(alloc, &g)?;
    let rows = quotient_rows(alloc, &f, number_of(&g), first)?;
    Ok(gives_fresh(alloc, first, demands, rows)?)
}

/// The remainder is a fresh variable.
#[tactic(auto, unfolding(crate::specs::Rules::remainder))]
pub(crate) fn remainder(alloc: Global, types: &[Ty], first: u32) -> Result<Rule, RuleError>
    ensures { Gives (λ rule. rule) result (spec.remainder first types.now) }
{
    let (_, g) = two_numbers(types)?;
    let demands = divisor_rows(alloc, &g)?;
    let rows = remainder_rows(alloc, &g, first)?;
    Ok(gives_fresh(alloc, first, demands, rows)?)
}
