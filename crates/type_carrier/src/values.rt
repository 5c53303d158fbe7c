//! What stands with the instructions of expressions.

ghost use Rattle.std.specs.Prelude.{◌≡◌, ◌++◌, [], ◌∷◌, IfOk, map};
ghost use Rattle.value_lowering.specs.ChainParts.{link_of};
ghost use Rattle.type_carrier.specs.CarriedValues as spec;
ghost use Rattle.type_carrier.specs.CarriedValues.{carried};
ghost use Rattle.type_carrier.specs.ProvedRows as rows;
ghost use Rattle.type_carrier.specs.Views.{proofs_of};
ghost use Rattle.xanadu_tree.specs.PlainOf.{plain_expr, to_exprs, to_links};

use crate::rows::{demand_edge, plain_edge};
use crate::site::Site;
use std::alloc::Global;
use three_address::Edge;
use typed_core::Note;
use xan_io::Memory;
use xanadu_tree::{CoreExpr, Op};

/// The notes behind the one in front.
pub(crate) fn behind_front<'a>(notes: &'a [Note]) -> &'a [Note]
    ensures { result.now ≡ rows.behind_front notes.now }
{
    match notes {
        [_, later @ ..] => later,
        [] => notes,
    }
}

// The goals of a demand that stands in front.
fn demand_in<'a>(notes: &'a [Note]) -> &'a [u32]
    ensures { result.now ≡ rows.demand_in notes.now }
{
    let [note, ..] = notes else {
        return &[];
    };
    match note {
        Note::Demand { goals } => goals.as_slice(),
        Note::State(_) | Note::Edge { .. } => &[],
    }
}

/// An instruction that demands nothing.
pub(crate) fn plainly(alloc: Global, edges: &mut Vec<Edge>) -> Result<(), Memory>
    ensures { IfOk result (λ _. edges.new.items ≡ edges.old.items ++ rows.plain ∷ []) }
{
    edges.push(plain_edge(alloc))?;
    Ok(())
}

/// An instruction with the goals of the note in front, and the notes behind.
pub(crate) fn demanded<'a>(
    site: &Site<'_>,
    notes: &'a [Note],
    edges: &mut Vec<Edge>,
) -> Result<&'a [Note], Memory>
    ensures { IfOk result (λ rest. carried edges.new.items rest.now ≡ spec.demanded (proofs_of site.now) (carried edges.old.items notes.now)) }
{
    let edge = demand_edge(site, demand_in(notes))?;
    edges.push(edge)?;
    Ok(behind_front(notes))
}

// Whether it is a division, which alone of the operators demands something.
fn divides(op: Op) -> bool
    ensures { result ≡ spec.divides op }
{
    match op {
        Op::Add | Op::Sub | Op::Mul => false,
        Op::Div | Op::Mod => true,
    }
}

// An operator.
fn operator<'a>(
    op: Op,
    site: &Site<'_>,
    notes: &'a [Note],
    edges: &mut Vec<Edge>,
) -> Result<&'a [Note], Memory>
    ensures { IfOk result (λ rest. carried edges.new.items rest.now ≡ spec.demanded_if (spec.divides op) (proofs_of site.now) (carried edges.old.items notes.now)) }
{
    if divides(op) {
        return demanded(site, notes, edges);
    }
    plainly(site.alloc, edges)?;
    Ok(notes)
}

/// An operand: one that is a variable has no code.
#[cycle(values)]
#[tactic(auto, using(xanadu_tree::proofs::Equations::plain_trees))]
pub(crate) fn operand<'a>(
    e: &CoreExpr,
    site: &Site<'_>,
    notes: &'a [Note],
    edges: &mut Vec<Edge>,
) -> Result<&'a [Note], Memory>
    ensures { IfOk result (λ rest. carried edges.new.items rest.now ≡ spec.operand (proofs_of site.now) (plain_expr e.now) (carried edges.old.items notes.now)) }
{
    match e {
        CoreExpr::Var(_) => Ok(notes),
        CoreExpr::Int(_)
        | CoreExpr::Bool(_)
        | CoreExpr::Neg(_)
        | CoreExpr::Chain { .. }
        | CoreExpr::Compare(_, _, _)
        | CoreExpr::Index(_, _, _)
        | CoreExpr::Len(_)
        | CoreExpr::Call { .. }
        | CoreExpr::Make { .. }
        | CoreExpr::New { .. } => value(e, site, notes, edges),
    }
}

/// The value of an expression.
#[cycle(values)]
#[tactic(auto, using(xanadu_tree::proofs::Equations::plain_trees), unfolding(crate::specs::CarriedValues::value))]
pub(crate) fn value<'a>(
    e: &CoreExpr,
    site: &Site<'_>,
    notes: &'a [Note],
    edges: &mut Vec<Edge>,
) -> Result<&'a [Note], Memory>
    ensures { IfOk result (λ rest. carried edges.new.items rest.now ≡ spec.value (proofs_of site.now) (plain_expr e.now) (carried edges.old.items notes.now)) }
{
    match e {
        CoreExpr::Int(_) | CoreExpr::Bool(_) | CoreExpr::Var(_) => {
            plainly(site.alloc, edges)?;
            Ok(notes)
        }
        CoreExpr::Neg(inner) => {
            plainly(site.alloc, edges)?;
            let rest = operand(inner, site, notes, edges)?;
            plainly(site.alloc, edges)?;
            Ok(rest)
        }
        CoreExpr::Chain { first, rest } => {
            let behind = operand(first, site, notes, edges)?;
            links(rest, site, behind, edges)
        }
        CoreExpr::Compare(_, left, right) => {
            let one = operand(left, site, notes, edges)?;
            let two = operand(right, site, one, edges)?;
            plainly(site.alloc, edges)?;
            Ok(two)
        }
        CoreExpr::Index(array, index, _) => {
            let one = operand(array, site, notes, edges)?;
            let two = operand(index, site, one, edges)?;
            demanded(site, two, edges)
        }
        CoreExpr::Len(array) => {
            let rest = operand(array, site, notes, edges)?;
            plainly(site.alloc, edges)?;
            Ok(rest)
        }
        CoreExpr::Call { args, .. } | CoreExpr::Make { args, .. } => {
            let rest = operands(args, site, notes, edges)?;
            demanded(site, rest, edges)
        }
        CoreExpr::New { len, fill, .. } => {
            let one = operand(len, site, notes, edges)?;
            let two = operand(fill, site, one, edges)?;
            demanded(site, two, edges)
        }
    }
}

// Operands in order.
#[cycle(values)]
#[tactic(auto, using(xanadu_tree::proofs::Equations::plain_trees), unfolding(crate::specs::CarriedValues::value))]
fn operands<'a>(
    es: &[CoreExpr],
    site: &Site<'_>,
    notes: &'a [Note],
    edges: &mut Vec<Edge>,
) -> Result<&'a [Note], Memory>
    ensures { IfOk result (λ rest. carried edges.new.items rest.now ≡ spec.operands (proofs_of site.now) (to_exprs (map plain_expr es.now)) (carried edges.old.items notes.now)) }
{
    let mut left = notes;
    for e in es {
        left = operand(e, site, left, edges)?;
    }
    Ok(left)
}

// The operators of a chain.
#[cycle(values)]
#[tactic(auto, using(xanadu_tree::proofs::Equations::plain_trees), unfolding(crate::specs::CarriedValues::value))]
fn links<'a>(
    rest: &[(Op, CoreExpr, u32)],
    site: &Site<'_>,
    notes: &'a [Note],
    edges: &mut Vec<Edge>,
) -> Result<&'a [Note], Memory>
    ensures { IfOk result (λ behind. carried edges.new.items behind.now ≡ spec.links (proofs_of site.now) (to_links (map link_of rest.now)) (carried edges.old.items notes.now)) }
{
    let mut left = notes;
    for (op, e, _) in rest {
        let behind = operand(e, site, left, edges)?;
        left = operator(*op, site, behind, edges)?;
    }
    Ok(left)
}
