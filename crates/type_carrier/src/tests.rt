//! What stands with the instructions of tests, and the states of their labels.

ghost use Rattle.std.specs.Prelude.{◌≡◌, IfOk, map};
ghost use Rattle.lowering.specs.Emitted.{turn_of};
ghost use Rattle.lowering.specs.TestCode as code;
ghost use Rattle.type_carrier.specs.CarriedTests as spec;
ghost use Rattle.type_carrier.specs.CarriedTests.{walked};
ghost use Rattle.type_carrier.specs.CarriedValues.{carried};
ghost use Rattle.type_carrier.specs.Views.{proofs_of, sources_of};
ghost use Rattle.xanadu_tree.specs.PlainOf.{plain_expr, plain_test, to_tests};

use crate::labels::place_label;
use crate::site::Site;
use crate::values::{behind_front, operand, plainly};
use state_types::StateType;
use three_address::Edge;
use typed_core::Note;
use xan_io::Memory;
use xanadu_tree::{CoreExpr, Test};

// A leaf of a test.
#[tactic(auto, using(xanadu_tree::proofs::Equations::plain_trees))]
fn leaf<'a>(
    e: &CoreExpr,
    site: &Site<'_>,
    notes: &'a [Note],
    edges: &mut Vec<Edge>,
) -> Result<&'a [Note], Memory>
    ensures { IfOk result (λ rest. carried edges.new.items rest.now ≡ spec.leaf (proofs_of site.now) (plain_expr e.now) (carried edges.old.items notes.now)) }
{
    match e {
        CoreExpr::Compare(_, left, right) => {
            let one = operand(left, site, notes, edges)?;
            let two = operand(right, site, one, edges)?;
            plainly(site.alloc, edges)?;
            Ok(two)
        }
        CoreExpr::Int(_)
        | CoreExpr::Bool(_)
        | CoreExpr::Var(_)
        | CoreExpr::Neg(_)
        | CoreExpr::Chain { .. }
        | CoreExpr::Index(_, _, _)
        | CoreExpr::Len(_)
        | CoreExpr::Call { .. }
        | CoreExpr::Make { .. }
        | CoreExpr::New { .. } => {
            let rest = operand(e, site, notes, edges)?;
            plainly(site.alloc, edges)?;
            Ok(rest)
        }
    }
}

// What each part of a test but the last is asked.
fn inner_on(crossed: bool, on: bool) -> bool
    ensures { result ≡ code.inner_on crossed on }
{
    if crossed { !on } else { on }
}

// What a part is asked that has so many others behind it.
fn turn(many: usize, inner: bool, last: bool) -> bool
    ensures { result ≡ turn_of many inner last }
{
    if many == 0 { last } else { inner }
}

// The end of parts: a jump and a label where they are asked for. The note of a state stands in any case.
fn end_of_parts<'a>(
    crossed: bool,
    site: &Site<'_>,
    notes: &'a [Note],
    edges: &mut Vec<Edge>,
    states: &mut Vec<StateType>,
) -> Result<&'a [Note], Memory>
    ensures { IfOk result (λ rest. walked edges.new.items rest.now states.new.items
        ≡ spec.labelled_if crossed (sources_of site.now) (spec.jump_plainly crossed (walked edges.old.items notes.now states.old.items))) }
{
    if !crossed {
        return Ok(behind_front(notes));
    }
    plainly(site.alloc, edges)?;
    place_label(site, notes, states)
}

/// A test, by what is asked.
#[cycle(test_walk)]
#[tactic(auto, using(xanadu_tree::proofs::Equations::plain_trees), unfolding(crate::specs::CarriedTests::parts_carried))]
pub(crate) fn test<'a>(
    t: &Test,
    site: &Site<'_>,
    on: bool,
    notes: &'a [Note],
    edges: &mut Vec<Edge>,
    states: &mut Vec<StateType>,
) -> Result<&'a [Note], Memory>
    ensures { IfOk result (λ rest. walked edges.new.items rest.now states.new.items
        ≡ spec.test (sources_of site.now) on (plain_test t.now) (walked edges.old.items notes.now states.old.items)) }
{
    match t {
        Test::Leaf(e) => leaf(e, site, notes, edges),
        Test::All(parts) => {
            let rest = all(parts, site, inner_on(on, on), on, notes, edges, states)?;
            end_of_parts(on, site, rest, edges, states)
        }
        Test::Any(parts) => {
            let rest = all(parts, site, inner_on(!on, on), on, notes, edges, states)?;
            end_of_parts(!on, site, rest, edges, states)
        }
        Test::Not(part) => test(part, site, !on, notes, edges, states),
    }
}

// The parts of a test, by what each but the last and the last one is asked.
#[cycle(test_walk)]
#[tactic(auto, using(xanadu_tree::proofs::Equations::plain_trees), unfolding(crate::specs::CarriedTests::parts_carried))]
fn all<'a>(
    parts: &[Test],
    site: &Site<'_>,
    inner: bool,
    last: bool,
    notes: &'a [Note],
    edges: &mut Vec<Edge>,
    states: &mut Vec<StateType>,
) -> Result<&'a [Note], Memory>
    ensures { IfOk result (λ rest. walked edges.new.items rest.now states.new.items
        ≡ spec.parts_carried (sources_of site.now) inner last (to_tests (map plain_test parts.now)) (walked edges.old.items notes.now states.old.items)) }
{
    let mut left = notes;
    let mut many = parts.len();
    for part in parts {
        many -= 1;
        let asked = turn(many, inner, last);
        left = test(part, site, asked, left, edges, states)?;
    }
    Ok(left)
}
