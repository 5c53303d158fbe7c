//! Tests of `if` and `while`.

ghost use Rattle.std.specs.Prelude.{◌≡◌, ◌≤◌, ◌∷◌, [], map, IfOk, All};
ghost use Rattle.header_elaborator.specs.Code.{Gives};
ghost use Rattle.expression_elaborator.specs.Views.{AreWithin, IsSite, same_sides, sides_of, site_of, state_of};
ghost use Rattle.operation_rules.specs.Applied.{all_assuming};
ghost use Rattle.operation_rules.specs.Faults.{filled};
ghost use Rattle.operation_rules.specs.Sides.{side};
ghost use Rattle.state_types.specs.Types.{TypeBelow};
ghost use Rattle.typed_core.specs.Limits.{by_rule};
ghost use Rattle.typed_core.specs.Tests as spec;
ghost use Rattle.xanadu_tree.specs.Plain as core;
ghost use Rattle.xanadu_tree.specs.PlainOf.{plain_expr, plain_test, to_tests};

use crate::constructs::state_by;
use crate::demands::note_state;
use crate::operands::{comparison_of, in_order, operand};
use crate::state::{Site, State};
use header_elaborator::{Failure, Stop};
use index_sorts::Context;
use operation_rules::{Operation, assume_all, side_rows};
use state_types::Ty;
use std::alloc::Global;
use xanadu_tree::{CoreExpr, Rel, Test};

/// The rows that hold on either side of a test.
#[derive(Drop)]
pub struct Sides {
    /// Those where it is true.
    pub on_true: Context,
    /// Those where it is false.
    pub on_false: Context,
}

/// The context, with the rows of a side.
#[tactic(auto, using(header_elaborator::proofs::WalkParts::ruled_fails, crate::proofs::BranchSides::sides_below, crate::proofs::ContextVariables::assumed_same))]
fn on_side(
    alloc: Global,
    taken: bool,
    op: &Operation,
    types: &[Ty],
    ctx: &Context,
) -> Result<Context, Stop>
    requires { All (TypeBelow ctx.now.vars) types.now }
    ensures side { Gives (λ made. made) result (by_rule (filled (all_assuming (side taken op.now types.now) ctx.now))) }
    ensures kept { IfOk result (λ made. made.vars ≡ ctx.now.vars) }
{
    let rows = side_rows(alloc, taken, op, types)?;
    let mut made = ctx.copy()?;
    assume_all(&mut made, rows.as_slice())?;
    Ok(made)
}

/// A branch by an operation over these types.
#[tactic(auto, using(typed_core::proofs::NamedStates::all_more), unfolding(typed_core::specs::Tests::branched))]
fn branched(site: &Site<'_>, op: &Operation, types: &[Ty], st: &mut State) -> Result<Sides, Stop>
    requires { IsSite site.now }
    ensures sides { Gives (λ sides. sides_of sides (state_of st.new)) result (spec.branched (site_of site.now) op.now types.now (state_of st.old)) }
    ensures grown { IfOk result (λ _. st.old.ctx.vars ≤ st.new.ctx.vars) }
    ensures within { IfOk result (λ sides. AreWithin sides st.new.ctx.vars) }
{
    state_by(site, None, op, types, st)?;
    let on_true = on_side(site.alloc, true, op, types, &st.ctx)?;
    let on_false = on_side(site.alloc, false, op, types, &st.ctx)?;
    Ok(Sides { on_true, on_false })
}

/// A truth value, of which nothing follows.
#[tactic(auto, unfolding(typed_core::specs::Tests::truth_leaf))]
fn truth_leaf(e: &CoreExpr, site: &Site<'_>, st: &mut State) -> Result<Sides, Stop>
    requires { IsSite site.now }
    ensures sides { Gives (λ sides. sides_of sides (state_of st.new)) result (spec.truth_leaf (site_of site.now) (plain_expr e.now) (state_of st.old)) }
    ensures grown { IfOk result (λ _. st.old.ctx.vars ≤ st.new.ctx.vars) }
    ensures within { IfOk result (λ sides. AreWithin sides st.new.ctx.vars) }
{
    let ty = operand(e, site, st)?;
    branched(site, &Operation::BranchTruth(true), &[ty], st)
}

/// A comparison.
#[tactic(auto, unfolding(typed_core::specs::Tests::leaf))]
fn comparison(
    rel: Rel,
    left: &CoreExpr,
    right: &CoreExpr,
    site: &Site<'_>,
    st: &mut State,
) -> Result<Sides, Stop>
    requires { IsSite site.now }
    ensures sides { Gives (λ sides. sides_of sides (state_of st.new)) result
        (spec.leaf (site_of site.now) (core.Compare rel (plain_expr left.now) (plain_expr right.now)) (state_of st.old)) }
    ensures grown { IfOk result (λ _. st.old.ctx.vars ≤ st.new.ctx.vars) }
    ensures within { IfOk result (λ sides. AreWithin sides st.new.ctx.vars) }
{
    let left = operand(left, site, st)?;
    let right = operand(right, site, st)?;
    let types = in_order(rel, left, right);
    branched(site, &Operation::Branch(comparison_of(rel)), &types, st)
}

/// An expression as a test.
#[tactic(auto, using(xanadu_tree::proofs::Equations::plain_trees), unfolding(typed_core::specs::Tests::leaf))]
fn leaf(e: &CoreExpr, site: &Site<'_>, st: &mut State) -> Result<Sides, Stop>
    requires { IsSite site.now }
    ensures sides { Gives (λ sides. sides_of sides (state_of st.new)) result (spec.leaf (site_of site.now) (plain_expr e.now) (state_of st.old)) }
    ensures grown { IfOk result (λ _. st.old.ctx.vars ≤ st.new.ctx.vars) }
    ensures within { IfOk result (λ sides. AreWithin sides st.new.ctx.vars) }
{
    match e {
        CoreExpr::Compare(rel, left, right) => comparison(*rel, left, right, site, st),
        CoreExpr::Int(_)
        | CoreExpr::Bool(_)
        | CoreExpr::Var(_)
        | CoreExpr::Neg(_)
        | CoreExpr::Chain { .. }
        | CoreExpr::Index(_, _, _)
        | CoreExpr::Len(_)
        | CoreExpr::Call { .. }
        | CoreExpr::Make { .. }
        | CoreExpr::New { .. } => truth_leaf(e, site, st),
    }
}

/// Nothing more is known on either side.
fn both_sides(ctx: &Context) -> Result<Sides, Failure>
    ensures { IfOk result (λ sides. sides ≡ record { on_true = ctx.now; on_false = ctx.now }) }
{
    Ok(Sides {
        on_true: ctx.copy()?,
        on_false: ctx.copy()?,
    })
}

/// Both sides of a test.
#[cycle(tests)]
#[tactic(auto, using(xanadu_tree::proofs::Equations::plain_trees), unfolding(typed_core::specs::Tests::tested))]
pub fn tested(test: &Test, site: &Site<'_>, st: &mut State) -> Result<Sides, Stop>
    requires { IsSite site.now }
    ensures sides { Gives (λ sides. sides_of sides (state_of st.new)) result (spec.tested (site_of site.now) (plain_test test.now) (state_of st.old)) }
    ensures grown { IfOk result (λ _. st.old.ctx.vars ≤ st.new.ctx.vars) }
    ensures within { IfOk result (λ sides. AreWithin sides st.new.ctx.vars) }
{
    match test {
        Test::Leaf(e) => leaf(e, site, st),
        Test::All(parts) => {
            let before = st.ctx.copy()?;
            let last = all_true(parts, site, st)?;
            note_state(&before, st)?;
            Ok(Sides {
                on_true: last.on_true,
                on_false: before,
            })
        }
        Test::Any(parts) => {
            let before = st.ctx.copy()?;
            let last = all_false(parts, site, st)?;
            note_state(&before, st)?;
            Ok(Sides {
                on_true: before,
                on_false: last.on_false,
            })
        }
        Test::Not(part) => {
            let sides = tested(part, site, st)?;
            Ok(Sides {
                on_true: sides.on_false,
                on_false: sides.on_true,
            })
        }
    }
}

/// The parts of `&&`, each of which begins where the one before it is true.
#[cycle(tests)]
#[tactic(auto, using(xanadu_tree::proofs::Equations::plain_trees), unfolding(typed_core::specs::Tests::all_true))]
fn all_true(parts: &[Test], site: &Site<'_>, st: &mut State) -> Result<Sides, Stop>
    requires { IsSite site.now }
    ensures sides { Gives (λ sides. sides_of sides (state_of st.new)) result
        (spec.all_true (site_of site.now) (to_tests (map plain_test parts.now)) (same_sides (state_of st.old))) }
    ensures grown { IfOk result (λ _. st.old.ctx.vars ≤ st.new.ctx.vars) }
    ensures within { IfOk result (λ sides. AreWithin sides st.new.ctx.vars) }
{
    let mut sides = both_sides(&st.ctx)?;
    for part in parts {
        st.turn_to(&sides.on_true)?;
        sides = tested(part, site, st)?;
    }
    Ok(sides)
}

/// The parts of `||`, each of which begins where the one before it is false.
#[cycle(tests)]
#[tactic(auto, using(xanadu_tree::proofs::Equations::plain_trees), unfolding(typed_core::specs::Tests::all_false))]
fn all_false(parts: &[Test], site: &Site<'_>, st: &mut State) -> Result<Sides, Stop>
    requires { IsSite site.now }
    ensures sides { Gives (λ sides. sides_of sides (state_of st.new)) result
        (spec.all_false (site_of site.now) (to_tests (map plain_test parts.now)) (same_sides (state_of st.old))) }
    ensures grown { IfOk result (λ _. st.old.ctx.vars ≤ st.new.ctx.vars) }
    ensures within { IfOk result (λ sides. AreWithin sides st.new.ctx.vars) }
{
    let mut sides = both_sides(&st.ctx)?;
    for part in parts {
        st.turn_to(&sides.on_false)?;
        sides = tested(part, site, st)?;
    }
    Ok(sides)
}
