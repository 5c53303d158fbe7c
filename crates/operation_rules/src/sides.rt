//! What holds where a comparison is true, and where it is false.

ghost use Rattle.std.specs.Prelude.{◌≡◌, IfOk};
ghost use Rattle.operation_rules.specs.Operations.{Branch};
ghost use Rattle.operation_rules.specs.Sides as spec;

use crate::forms::pair;
use crate::operation::Operation;
use crate::rule::single;
use state_types::Ty;
use std::alloc::Global;
use xan_lin::{Form, Memory, TooLarge};

// The row of f < g.
fn less(f: &Form, g: &Form) -> Result<Form, TooLarge>
    ensures { result ≡ spec.less f.now g.now }
{
    g.excess_row(f)
}

// The row of f <= g.
fn at_most(f: &Form, g: &Form) -> Result<Form, TooLarge>
    ensures { result ≡ spec.at_most f.now g.now }
{
    g.sub(f)
}

// The rows of f = g.
fn equal(alloc: Global, f: &Form, g: &Form) -> Result<Vec<Result<Form, TooLarge>>, Memory>
    ensures { IfOk result (λ rows. rows.items ≡ spec.equal f.now g.now) }
{
    pair(alloc, at_most(g, f), at_most(f, g))
}

// What holds where the comparison is true.
#[tactic(auto, using(crate::proofs::SidesMade::true_others))]
fn true_side(
    alloc: Global,
    comparison: u32,
    f: &Form,
    g: &Form,
) -> Result<Vec<Result<Form, TooLarge>>, Memory>
    ensures { IfOk result (λ rows. rows.items ≡ spec.true_side comparison f.now g.now) }
{
    if comparison == 0 {
        return single(alloc, less(f, g));
    }
    if comparison == 1 {
        return single(alloc, at_most(f, g));
    }
    if comparison == 2 {
        return equal(alloc, f, g);
    }
    Ok(Vec::new(alloc))
}

// What holds where it is false.
#[tactic(auto, using(crate::proofs::SidesMade::false_others))]
fn false_side(
    alloc: Global,
    comparison: u32,
    f: &Form,
    g: &Form,
) -> Result<Vec<Result<Form, TooLarge>>, Memory>
    ensures { IfOk result (λ rows. rows.items ≡ spec.false_side comparison f.now g.now) }
{
    if comparison == 0 {
        return single(alloc, at_most(g, f));
    }
    if comparison == 1 {
        return single(alloc, less(g, f));
    }
    if comparison == 2 {
        return Ok(Vec::new(alloc));
    }
    equal(alloc, f, g)
}

/// The rows of a comparison of two forms, where it is true (`side`) or false. A row is an error where it is past the bounds of a form.
pub fn side_of(
    alloc: Global,
    side: bool,
    comparison: u32,
    f: &Form,
    g: &Form,
) -> Result<Vec<Result<Form, TooLarge>>, Memory>
    ensures { IfOk result (λ rows. rows.items ≡ spec.side_of side comparison f.now g.now) }
{
    if side {
        true_side(alloc, comparison, f, g)
    } else {
        false_side(alloc, comparison, f, g)
    }
}

// The rows of a comparison of two types.
fn side_of_types(
    alloc: Global,
    taken: bool,
    comparison: u32,
    types: &[Ty],
) -> Result<Vec<Result<Form, TooLarge>>, Memory>
    ensures { IfOk result (λ rows. rows.items ≡ spec.side taken (Branch comparison) types.now) }
{
    let [left, right] = types else {
        return Ok(Vec::new(alloc));
    };
    let Ty::Int(f) = left else {
        return Ok(Vec::new(alloc));
    };
    let Ty::Int(g) = right else {
        return Ok(Vec::new(alloc));
    };
    side_of(alloc, taken, comparison, f, g)
}

/// The rows that hold where an operation goes elsewhere (`taken`), or goes on, by the types that it reads. Nothing follows from a truth
/// value.
pub fn side_rows(
    alloc: Global,
    taken: bool,
    op: &Operation,
    types: &[Ty],
) -> Result<Vec<Result<Form, TooLarge>>, Memory>
    ensures { IfOk result (λ rows. rows.items ≡ spec.side taken op.now types.now) }
{
    match op {
        Operation::Branch(comparison) => side_of_types(alloc, taken, *comparison, types),
        _ => Ok(Vec::new(alloc)),
    }
}
