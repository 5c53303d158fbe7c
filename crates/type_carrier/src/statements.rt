//! What stands with the instructions of statements and blocks, and the states of their labels.

ghost use Rattle.std.specs.Option.{option_map};
ghost use Rattle.std.specs.Prelude.{◌≡◌, ◌++◌, IfOk};
ghost use Rattle.type_carrier.specs.CarriedStatements as spec;
ghost use Rattle.type_carrier.specs.CarriedTests as tests;
ghost use Rattle.type_carrier.specs.CarriedTests.{walked};
ghost use Rattle.type_carrier.specs.CarriedValues as values;
ghost use Rattle.type_carrier.specs.CarriedValues.{carried};
ghost use Rattle.type_carrier.specs.ProvedRows as rows;
ghost use Rattle.type_carrier.specs.Views.{proofs_of, sources_of};
ghost use Rattle.type_carrier.specs.Ways as ways;
ghost use Rattle.typed_core.specs.Joins.{stated};
ghost use Rattle.xanadu_tree.specs.PlainOf.{plain_block, plain_expr, plain_stmt};

use crate::labels::{next_state, place_label};
use crate::rows::plain_edge;
use crate::site::Site;
use crate::tests::test;
use crate::values::{behind_front, demanded, operand, plainly, value};
use crate::ways::way_edge;
use lowering::completes_all;
use state_types::StateType;
use three_address::Edge;
use typed_core::Note;
use xan_io::Memory;
use xanadu_tree::{Clause, CoreExpr, CoreStmt, CoreTy};

// The value of a `return`, and the return.
fn returned<'a>(
    e: &Option<CoreExpr>,
    site: &Site<'_>,
    notes: &'a [Note],
    edges: &mut Vec<Edge>,
) -> Result<&'a [Note], Memory>
    ensures { IfOk result (λ rest. carried edges.new.items rest.now ≡ spec.returned (proofs_of site.now) (option_map plain_expr e.now) (carried edges.old.items notes.now)) }
{
    match e {
        Some(e) => {
            let rest = operand(e, site, notes, edges)?;
            demanded(site, rest, edges)
        }
        None => {
            plainly(site.alloc, edges)?;
            demanded(site, notes, edges)
        }
    }
}

// A value into a cell.
fn stored<'a>(
    array: &CoreExpr,
    index: &CoreExpr,
    e: &CoreExpr,
    site: &Site<'_>,
    notes: &'a [Note],
    edges: &mut Vec<Edge>,
) -> Result<&'a [Note], Memory>
    ensures { IfOk result (λ rest. carried edges.new.items rest.now ≡ values.demanded (proofs_of site.now)
        (values.operand (proofs_of site.now) (plain_expr e.now) (values.operand (proofs_of site.now) (plain_expr index.now)
        (values.operand (proofs_of site.now) (plain_expr array.now) (carried edges.old.items notes.now))))) }
{
    let one = operand(array, site, notes, edges)?;
    let two = operand(index, site, one, edges)?;
    let three = operand(e, site, two, edges)?;
    demanded(site, three, edges)
}

// An operand, and an instruction that demands nothing.
fn used<'a>(
    e: &CoreExpr,
    site: &Site<'_>,
    notes: &'a [Note],
    edges: &mut Vec<Edge>,
) -> Result<&'a [Note], Memory>
    ensures { IfOk result (λ rest. carried edges.new.items rest.now
        ≡ values.plainly (values.operand (proofs_of site.now) (plain_expr e.now) (carried edges.old.items notes.now))) }
{
    let rest = operand(e, site, notes, edges)?;
    plainly(site.alloc, edges)?;
    Ok(rest)
}

// The variables whose types a clause states.
fn vars_of<'a>(clause: &'a Option<Clause>) -> &'a [(u32, CoreTy)]
    ensures { result.now ≡ (stated clause.now).vars }
{
    match clause {
        Some(clause) => clause.vars.as_slice(),
        None => &[],
    }
}

// What stands with a jump, by the note in front.
fn way_at(
    site: &Site<'_>,
    vars: &[(u32, CoreTy)],
    target: Option<&StateType>,
    notes: &[Note],
) -> Result<Edge, Memory>
    ensures { IfOk result (λ edge. edge ≡ ways.way_edge (proofs_of site.now) vars.now (option_map (λ s. s.now) target.entry) (rows.way_in notes.now)) }
{
    let Some(target) = target else {
        return Ok(plain_edge(site.alloc));
    };
    let [note, ..] = notes else {
        return way_edge(site, vars, target, &[], &[], &[]);
    };
    match note {
        Note::Edge {
            values,
            present,
            goals,
        } => way_edge(
            site,
            vars,
            target,
            values.as_slice(),
            present.as_slice(),
            goals.as_slice(),
        ),
        Note::State(_) | Note::Demand { .. } => way_edge(site, vars, target, &[], &[], &[]),
    }
}

// A jump, where there is one, by the note in front.
fn way_if<'a>(
    so: bool,
    site: &Site<'_>,
    clause: &Option<Clause>,
    target: Option<&StateType>,
    notes: &'a [Note],
    edges: &mut Vec<Edge>,
) -> Result<&'a [Note], Memory>
    ensures edges { IfOk result (λ _. edges.new.items ≡ edges.old.items ++ spec.way_edges so (sources_of site.now) (stated clause.now) (option_map (λ s. s.now) target.entry) notes.now) }
    ensures notes { IfOk result (λ rest. rest.now ≡ spec.past_way so notes.now) }
{
    if !so {
        return Ok(notes);
    }
    let edge = way_at(site, vars_of(clause), target, notes)?;
    edges.push(edge)?;
    Ok(behind_front(notes))
}

// Edges behind others.
fn append(edges: &mut Vec<Edge>, later: Vec<Edge>) -> Result<(), Memory>
    ensures { IfOk result (λ _. edges.new.items ≡ edges.old.items ++ later.items) }
{
    for edge in later {
        edges.push(edge)?;
    }
    Ok(())
}

// Where both branches meet by notes.
fn meeting<'a>(
    one: bool,
    two: bool,
    site: &Site<'_>,
    join: &Option<Clause>,
    notes: &'a [Note],
    edges: &mut Vec<Edge>,
    later: Vec<Edge>,
    states: &mut Vec<StateType>,
) -> Result<&'a [Note], Memory>
    ensures { IfOk result (λ rest. walked edges.new.items rest.now states.new.items
        ≡ spec.meeting one two (sources_of site.now) (stated join.now) edges.old.items (walked later.items notes.now states.old.items)) }
{
    let target = next_state(site, notes, states.as_slice())?;
    let met = place_label(site, notes, states)?;
    let back = way_if(one, site, join, target.as_ref(), met, edges)?;
    append(edges, later)?;
    way_if(two, site, join, target.as_ref(), back, edges)
}

// Where branches end, by whether they complete.
fn meet<'a>(
    one: bool,
    two: bool,
    site: &Site<'_>,
    join: &Option<Clause>,
    notes: &'a [Note],
    edges: &mut Vec<Edge>,
    later: Vec<Edge>,
    states: &mut Vec<StateType>,
) -> Result<&'a [Note], Memory>
    ensures { IfOk result (λ rest. walked edges.new.items rest.now states.new.items
        ≡ spec.branches_meet one two join.now (sources_of site.now) edges.old.items (walked later.items notes.now states.old.items)) }
{
    match (one, two, join) {
        (false, false, _) => {
            append(edges, later)?;
            Ok(notes)
        }
        (true, false, None) => {
            plainly(site.alloc, edges)?;
            append(edges, later)?;
            place_label(site, notes, states)
        }
        (false, true, None) => {
            append(edges, later)?;
            Ok(behind_front(notes))
        }
        (true, true, None) | (_, _, Some(_)) => meeting(
            one, two, site, join, notes, edges, later, states,
        ),
    }
}

// The head of a loop: its label, and the jump there.
fn enter<'a>(
    site: &Site<'_>,
    head: &Option<Clause>,
    target: Option<&StateType>,
    notes: &'a [Note],
    edges: &mut Vec<Edge>,
    states: &mut Vec<StateType>,
) -> Result<&'a [Note], Memory>
    ensures { IfOk result (λ rest. walked edges.new.items rest.now states.new.items
        ≡ spec.entered (sources_of site.now) (stated head.now) (option_map (λ s. s.now) target.entry) (walked edges.old.items notes.now states.old.items)) }
{
    let met = place_label(site, notes, states)?;
    way_if(true, site, head, target, met, edges)
}

/// A statement.
#[cycle(statements)]
#[tactic(auto, using(xanadu_tree::proofs::Equations::plain_trees), unfolding(crate::specs::CarriedStatements::statement))]
fn statement<'a>(
    s: &CoreStmt,
    site: &Site<'_>,
    notes: &'a [Note],
    edges: &mut Vec<Edge>,
    states: &mut Vec<StateType>,
) -> Result<&'a [Note], Memory>
    ensures { IfOk result (λ rest. walked edges.new.items rest.now states.new.items
        ≡ spec.statement (sources_of site.now) (plain_stmt s.now) (walked edges.old.items notes.now states.old.items)) }
{
    match s {
        CoreStmt::Set(_, e) | CoreStmt::Do(e) => value(e, site, notes, edges),
        CoreStmt::Split(_, e, _) | CoreStmt::Print(e) => used(e, site, notes, edges),
        CoreStmt::Store(array, index, e, _) => stored(array, index, e, site, notes, edges),
        CoreStmt::If {
            test: asked,
            on_true,
            on_false,
            join,
            ..
        } => {
            let begun = test(asked, site, false, notes, edges, states)?;
            let other = first(on_true, site, begun, edges, states)?;
            let completes = completes_all(on_true);
            second(on_false, site, completes, join, other, edges, states)
        }
        CoreStmt::While {
            test: asked,
            head,
            body,
            ..
        } => {
            let target = next_state(site, notes, states.as_slice())?;
            let met = enter(site, head, target.as_ref(), notes, edges, states)?;
            let begun = test(asked, site, false, met, edges, states)?;
            turn_back(body, site, head, target.as_ref(), begun, edges, states)
        }
        CoreStmt::Return(e, _) => returned(e, site, notes, edges),
    }
}

// The first branch of an `if`, and the label of the second one.
#[cycle(statements)]
fn first<'a>(
    ss: &[CoreStmt],
    site: &Site<'_>,
    notes: &'a [Note],
    edges: &mut Vec<Edge>,
    states: &mut Vec<StateType>,
) -> Result<&'a [Note], Memory>
    ensures { IfOk result (λ rest. walked edges.new.items rest.now states.new.items
        ≡ tests.labelled (sources_of site.now) (spec.block (sources_of site.now) (plain_block ss.now) (walked edges.old.items notes.now states.old.items))) }
{
    let rest = block(ss, site, notes, edges, states)?;
    place_label(site, rest, states)
}

// The second branch of an `if`, and where both end.
#[cycle(statements)]
fn second<'a>(
    ss: &[CoreStmt],
    site: &Site<'_>,
    one: bool,
    join: &Option<Clause>,
    notes: &'a [Note],
    edges: &mut Vec<Edge>,
    states: &mut Vec<StateType>,
) -> Result<&'a [Note], Memory>
    ensures { IfOk result (λ rest. walked edges.new.items rest.now states.new.items
        ≡ spec.second_branch (sources_of site.now) one (plain_block ss.now) join.now edges.old.items
        (spec.block (sources_of site.now) (plain_block ss.now) (spec.second_begins (walked edges.old.items notes.now states.old.items)))) }
{
    let mut later = Vec::new(site.alloc);
    let rest = block(ss, site, notes, &mut later, states)?;
    meet(
        one,
        completes_all(ss),
        site,
        join,
        rest,
        edges,
        later,
        states,
    )
}

// The body of a loop, the jump back to its head, and the label behind it.
#[cycle(statements)]
fn turn_back<'a>(
    ss: &[CoreStmt],
    site: &Site<'_>,
    head: &Option<Clause>,
    target: Option<&StateType>,
    notes: &'a [Note],
    edges: &mut Vec<Edge>,
    states: &mut Vec<StateType>,
) -> Result<&'a [Note], Memory>
    ensures { IfOk result (λ rest. walked edges.new.items rest.now states.new.items
        ≡ spec.turned (sources_of site.now) (stated head.now) (option_map (λ s. s.now) target.entry) (plain_block ss.now)
        (spec.block (sources_of site.now) (plain_block ss.now) (walked edges.old.items notes.now states.old.items))) }
{
    let rest = block(ss, site, notes, edges, states)?;
    let back = way_if(completes_all(ss), site, head, target, rest, edges)?;
    place_label(site, back, states)
}

/// A block.
#[cycle(statements)]
#[tactic(auto, using(xanadu_tree::proofs::Equations::plain_trees), unfolding(crate::specs::CarriedStatements::statement))]
pub(crate) fn block<'a>(
    ss: &[CoreStmt],
    site: &Site<'_>,
    notes: &'a [Note],
    edges: &mut Vec<Edge>,
    states: &mut Vec<StateType>,
) -> Result<&'a [Note], Memory>
    ensures { IfOk result (λ rest. walked edges.new.items rest.now states.new.items
        ≡ spec.block (sources_of site.now) (plain_block ss.now) (walked edges.old.items notes.now states.old.items)) }
{
    let mut left = notes;
    for s in ss {
        left = statement(s, site, left, edges, states)?;
    }
    Ok(left)
}
