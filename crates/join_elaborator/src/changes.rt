//! Which variables a block changes: it assigns them, or a clause within it gives them another type. One walk marks them all.

ghost use Rattle.std.specs.Prelude.{◌≡◌, ◌==◌};
ghost use Rattle.std.specs.List.{list_any};
ghost use Rattle.join_elaborator.specs.Changed.{changed_by, is_marked, marked, no_marks};
ghost use Rattle.typed_core.specs.Joins as spec;
ghost use Rattle.xanadu_tree.specs.PlainOf.{plain_block, plain_stmt};

use xanadu_tree::{Clause, CoreStmt, CoreTy};

/// How many places a function has at most.
const MOST_PLACES: usize = 240;

/// The blocks behind which a state is joined: the body of a loop, or both branches.
#[derive(Clone, Copy, Drop)]
pub enum Blocks<'a> {
    /// A loop's body.
    Body(&'a [CoreStmt]),
    /// The branches of an `if`.
    Branches(&'a [CoreStmt], &'a [CoreStmt]),
}

/// Whether a type of the variable is stated.
pub(crate) fn is_named(x: u32, mut stated: &[(u32, CoreTy)]) -> bool
    ensures { result ≡ spec.is_named x stated.entry.now }
{
    while let [one, later @ ..] = stated {
        if one.0 == x {
            return true;
        }
        stated = later;
    }
    false
}

/// Marks the variable, where it has a place.
#[tactic(auto, using(crate::proofs::Marks::marked_one, crate::proofs::Marks::marked_past))]
fn mark(x: u32, marks: &mut [bool])
    ensures { marks.new ≡ marked (λ y. x == y) 0 marks.old }
{
    let place = x as usize;
    if place < marks.len() {
        marks[place] = true;
    }
}

/// Marks these variables.
fn mark_all(mut xs: &[u32], marks: &mut [bool])
    ensures { marks.new ≡ marked (λ y. list_any (λ x. x == y) xs.entry.now) 0 marks.old }
{
    while let [x, later @ ..] = xs {
        mark(*x, marks);
        xs = later;
    }
}

/// Marks those of which a type is stated.
fn mark_stated(stated: &[(u32, CoreTy)], marks: &mut [bool])
    ensures { marks.new ≡ marked (λ y. spec.is_named y stated.now) 0 marks.old }
{
    for one in stated {
        mark(one.0, marks);
    }
}

/// Marks those that the clause names.
#[tactic(auto, using(crate::proofs::Marks::no_clause_marked))]
fn mark_clause(clause: &Option<Clause>, marks: &mut [bool])
    ensures { marks.new ≡ marked (spec.names clause.now) 0 marks.old }
{
    if let Some(clause) = clause {
        mark_stated(clause.vars.as_slice(), marks);
    }
}

/// Marks those that the statement changes.
#[cycle(marks)]
#[tactic(auto, using(xanadu_tree::proofs::Equations::plain_trees, crate::proofs::Marks::set_marked, crate::proofs::Marks::split_marked, crate::proofs::Marks::store_marked, crate::proofs::Marks::do_marked, crate::proofs::Marks::print_marked, crate::proofs::Marks::return_marked, crate::proofs::Marks::if_marked, crate::proofs::Marks::while_marked))]
fn mark_changes(statement: &CoreStmt, marks: &mut [bool])
    ensures { marks.new ≡ marked (spec.changes (plain_stmt statement.now)) 0 marks.old }
{
    match statement {
        CoreStmt::Set(x, _) => mark(*x, marks),
        CoreStmt::Split(xs, _, _) => mark_all(xs.as_slice(), marks),
        CoreStmt::Store(_, _, _, _)
        | CoreStmt::Do(_)
        | CoreStmt::Print(_)
        | CoreStmt::Return(_, _) => {}
        CoreStmt::If {
            on_true,
            on_false,
            join,
            ..
        } => {
            mark_block(on_true, marks);
            mark_block(on_false, marks);
            mark_clause(join, marks);
        }
        CoreStmt::While { head, body, .. } => {
            mark_clause(head, marks);
            mark_block(body, marks);
        }
    }
}

/// Marks those that a statement of the block changes.
#[cycle(marks)]
#[tactic(auto, using(xanadu_tree::proofs::Equations::plain_trees, crate::proofs::Marks::rest_marked, crate::proofs::Marks::block_done))]
fn mark_block(block: &[CoreStmt], marks: &mut [bool])
    ensures { marks.new ≡ marked (spec.changes_any (plain_block block.now)) 0 marks.old }
{
    for statement in block {
        mark_changes(statement, marks);
    }
}

/// The marks of those that the blocks change.
#[tactic(auto, using(crate::proofs::Marks::branches_marked))]
pub(crate) fn marks_of(blocks: &Blocks<'_>) -> [bool; MOST_PLACES]
    ensures { result ≡ marked (changed_by blocks.now) 0 no_marks }
{
    let mut marks = [false; MOST_PLACES];
    match blocks {
        Blocks::Body(body) => mark_block(body, &mut marks),
        Blocks::Branches(one, two) => {
            mark_block(one, &mut marks);
            mark_block(two, &mut marks);
        }
    }
    marks
}

/// Whether the variable of the place is marked.
pub(crate) fn has_mark(marks: &[bool], place: u16) -> bool
    ensures { result ≡ is_marked marks.now place }
{
    match marks.get(place as usize) {
        Some(mark) => *mark,
        None => false,
    }
}
