//! Expressions: the type of each, and what it demands.

ghost use Rattle.std.specs.Prelude.{◌≡◌, ◌≤◌, [], map, None, IfOk};
ghost use Rattle.header_elaborator.specs.Code.{Steps};
ghost use Rattle.expression_elaborator.specs.Views.{IsSite, site_of, state_of};
ghost use Rattle.header_elaborator.specs.Links.{link_of};
ghost use Rattle.operation_rules.specs.declared.operation.Operation.TheVariants.{Literal};
ghost use Rattle.typed_core.specs.Constructs.{type_by};
ghost use Rattle.typed_core.specs.Operands as spec;
ghost use Rattle.typed_core.specs.Operators as operators;
ghost use Rattle.xan_lin.specs.Subst.{zero_form};
ghost use Rattle.xanadu_tree.specs.PlainOf.{plain_expr, to_exprs, to_links};

use crate::constructs::type_by;
use crate::state::{Site, State, type_of};
use header_elaborator::Stop;
use operation_rules::Operation;
use state_types::Ty;
use xan_lin::Form;
use xanadu_tree::{CoreExpr, Op, Rel};

/// The form 0.
#[tactic(auto, unfolding(xan_lin::specs::Linear::sized, xan_lin::specs::Terms::sum_terms))]
pub fn zero() -> Form
    ensures { result ≡ zero_form }
{
    let Ok(form) = Form::from_terms(&[], 0) else {
        unreachable!()
    };
    form
}

/// The operation of an operator.
fn operation_of(op: Op) -> Operation
    ensures { result ≡ operators.operation_of op }
{
    match op {
        Op::Add => Operation::Add,
        Op::Sub => Operation::Sub,
        Op::Mul => Operation::Mul,
        Op::Div => Operation::Div,
        Op::Mod => Operation::Mod,
    }
}

/// Where what an operator demands is noted.
fn demands_at(op: Op, at: u32) -> Option<u32>
    ensures { result ≡ operators.demands_at op at }
{
    match op {
        Op::Add | Op::Sub | Op::Mul => None,
        Op::Div | Op::Mod => Some(at),
    }
}

/// The number of a relation as a comparison.
pub(crate) fn comparison_of(rel: Rel) -> u32
    ensures { result ≡ operators.comparison_of rel }
{
    match rel {
        Rel::Lt | Rel::Gt => 0,
        Rel::Le | Rel::Ge => 1,
        Rel::Eq => 2,
        Rel::Ne => 3,
    }
}

/// The two sides, as the comparison takes them.
pub(crate) fn in_order(rel: Rel, left: Ty, right: Ty) -> [Ty; 2]
    ensures { result ≡ operators.in_order rel left right }
{
    match rel {
        Rel::Lt | Rel::Le | Rel::Eq | Rel::Ne => [left, right],
        Rel::Gt | Rel::Ge => [right, left],
    }
}

/// The type of a number that is written.
fn number(value: &i64, site: &Site<'_>, st: &mut State) -> Result<Ty, Stop>
    requires { IsSite site.now }
    ensures given { Steps (λ ty. ty) result (state_of st.new) (type_by (site_of site.now) None (Literal value.now) [] (state_of st.old)) }
    ensures grown { IfOk result (λ _. st.old.ctx.vars ≤ st.new.ctx.vars) }
{
    type_by(site, None, &Operation::Literal(*value), &[], st)
}

/// The type of an expression.
#[cycle(expression)]
#[tactic(auto, using(xanadu_tree::proofs::Equations::plain_trees), unfolding(typed_core::specs::Operands::operand))]
pub fn operand(e: &CoreExpr, site: &Site<'_>, st: &mut State) -> Result<Ty, Stop>
    requires { IsSite site.now }
    ensures given { Steps (λ ty. ty) result (state_of st.new) (spec.operand (site_of site.now) (plain_expr e.now) (state_of st.old)) }
    ensures grown { IfOk result (λ _. st.old.ctx.vars ≤ st.new.ctx.vars) }
{
    match e {
        CoreExpr::Int(value) => number(value, site, st),
        CoreExpr::Bool(truth) => type_by(site, None, &Operation::Truth(*truth), &[], st),
        CoreExpr::Var(x) => type_of(*x, &st.places),
        CoreExpr::Neg(inner) => {
            let ty = operand(inner, site, st)?;
            type_by(site, None, &Operation::Sub, &[Ty::Int(zero()), ty], st)
        }
        CoreExpr::Chain { first, rest } => {
            let ty = operand(first, site, st)?;
            chained(rest, site, ty, st)
        }
        CoreExpr::Compare(rel, left, right) => {
            let left = operand(left, site, st)?;
            let right = operand(right, site, st)?;
            let types = in_order(*rel, left, right);
            type_by(
                site,
                None,
                &Operation::Compare(comparison_of(*rel)),
                &types,
                st,
            )
        }
        CoreExpr::Index(array, index, at) => {
            let array = operand(array, site, st)?;
            let index = operand(index, site, st)?;
            type_by(site, Some(*at), &Operation::Load, &[array, index], st)
        }
        CoreExpr::Len(array) => {
            let array = operand(array, site, st)?;
            type_by(site, None, &Operation::Length, &[array], st)
        }
        CoreExpr::Call { fun, args, at } => {
            let types = operands(args, site, st)?;
            type_by(
                site,
                Some(*at),
                &Operation::Call(*fun),
                types.as_slice(),
                st,
            )
        }
        CoreExpr::Make { ty, args, at } => {
            let types = operands(args, site, st)?;
            type_by(
                site,
                Some(*at),
                &Operation::Tuple(*ty),
                types.as_slice(),
                st,
            )
        }
        CoreExpr::New { ty, len, fill, at } => {
            let len = operand(len, site, st)?;
            let fill = operand(fill, site, st)?;
            type_by(site, Some(*at), &Operation::New(*ty), &[len, fill], st)
        }
    }
}

/// The types of operands, from left to right.
#[cycle(expression)]
#[tactic(auto, using(xanadu_tree::proofs::Equations::plain_trees), unfolding(typed_core::specs::Operands::operands))]
fn operands(es: &[CoreExpr], site: &Site<'_>, st: &mut State) -> Result<Vec<Ty>, Stop>
    requires { IsSite site.now }
    ensures given { Steps (λ types. types.items) result (state_of st.new) (spec.operands (site_of site.now) (to_exprs (map plain_expr es.now)) [] (state_of st.old)) }
    ensures grown { IfOk result (λ _. st.old.ctx.vars ≤ st.new.ctx.vars) }
{
    let mut types = Vec::new(site.alloc);
    for e in es {
        types.push(operand(e, site, st)?)?;
    }
    Ok(types)
}

/// The operators of a chain, from left to right.
#[cycle(expression)]
#[tactic(auto, using(xanadu_tree::proofs::Equations::plain_trees), unfolding(typed_core::specs::Operands::chained))]
fn chained(
    rest: &[(Op, CoreExpr, u32)],
    site: &Site<'_>,
    first: Ty,
    st: &mut State,
) -> Result<Ty, Stop>
    requires { IsSite site.now }
    ensures given { Steps (λ ty. ty) result (state_of st.new) (spec.chained (site_of site.now) (to_links (map link_of rest.now)) first (state_of st.old)) }
    ensures grown { IfOk result (λ _. st.old.ctx.vars ≤ st.new.ctx.vars) }
{
    let mut ty = first;
    for (op, e, at) in rest {
        let right = operand(e, site, st)?;
        let types = [ty, right];
        ty = type_by(site, demands_at(*op, *at), &operation_of(*op), &types, st)?;
    }
    Ok(ty)
}
