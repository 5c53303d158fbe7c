//! The lines that prove demanded rows.

ghost use Rattle.std.specs.Prelude.{◌≡◌, ◌≤◌, ◌∷◌, List, length, IfOk, IfSome, All, option_map};
ghost use Rattle.dtal_code.specs.Passing as spec;
ghost use Rattle.instruction_checks.specs.Proving.{IsReady, proved_from};
ghost use Rattle.instruction_checks.specs.Views.{AreCountable};
ghost use Rattle.proof_lines.specs.Check.{checked};
ghost use Rattle.xan_lin.specs.Linear.{Linear};

use proof_lines::{Line, check_lines};
use state_types::Context;
use std::alloc::Global;
use xan_lin::{Form, Memory};
use xan_pool::RowPool;
use xan_seq::Seq;

// How wide a row of a pool for lines is.
const WIDTH: usize = 65;

// For how many lines there is room at first.
const FIRST_ROOM: usize = 64;

/// The pool in which lines are checked. It is made once, and again where a longer list comes.
#[derive(Drop)]
pub struct Checker {
    /// The pool.
    pub(crate) pool: RowPool,
    /// How many rows it has room for.
    pub(crate) room: usize,
}

// A checker for lists of so many lines.
fn with_room(alloc: Global, room: usize) -> Result<Checker, Memory>
    ensures ready { IfOk result (λ checker. IsReady checker) }
    ensures room { IfOk result (λ checker. checker.room ≡ room) }
{
    match RowPool::new(alloc, room, WIDTH) {
        Ok(pool) => Ok(Checker { pool, room }),
        Err(_) => Err(Memory),
    }
}

/// The checker at first.
pub fn first_checker(alloc: Global) -> Result<Checker, Memory>
    ensures { IfOk result (λ checker. IsReady checker) }
{
    with_room(alloc, FIRST_ROOM)
}

// There is room for so many lines.
fn make_room(alloc: Global, checker: &mut Checker, lines: usize) -> Result<(), Memory>
    requires ready { IsReady checker.old }
    requires countable { lines ≤ 4294967295 }
    ensures ready { IfOk result (λ _. IsReady checker.new) }
    ensures room { IfOk result (λ _. lines ≤ checker.new.room) }
{
    if lines <= checker.room {
        return Ok(());
    }
    *checker = with_room(alloc, lines + lines)?;
    Ok(())
}

// Whether the lines prove the row.
fn is_proof(
    alloc: Global,
    checker: &mut Checker,
    ctx: &Context,
    row: &Form,
    lines: &[Line],
) -> Result<bool, Memory>
    requires ready { IsReady checker.old }
    requires countable { length lines.now ≤ 4294967295 }
    ensures proof { IfOk result (λ test. test ≡ spec.is_proof (checked ctx.now.rows row.now lines.now)) }
    ensures ready { IfOk result (λ _. IsReady checker.new) }
{
    make_room(alloc, checker, lines.len())?;
    match check_lines(&mut checker.pool, ctx, row, lines) {
        Ok(()) => Ok(true),
        Err(_) => Ok(false),
    }
}

// The lists that are left behind the row, or `None` where it is not known and the first list does not prove it.
#[tactic(auto, unfolding(dtal_code::specs::Passing::unknown, dtal_code::specs::Passing::are_proved))]
fn after_row<'a>(
    alloc: Global,
    checker: &mut Checker,
    ctx: &Context,
    row: &Form,
    by: &'a [Seq<Line>],
) -> Result<Option<&'a [Seq<Line>]>, Memory>
    requires ready { IsReady checker.old }
    requires countable { AreCountable by.now }
    ensures proved { IfOk result (λ rest. (rows : List Linear)
        → spec.are_proved ctx.now (spec.unknown ctx.now (row.now ∷ rows)) by.now ≡ proved_from ctx.now rows (option_map (λ r. r.now) rest)) }
    ensures countable { IfOk result (λ rest. IfSome rest (λ r. AreCountable r.now)) }
    ensures ready { IfOk result (λ _. IsReady checker.new) }
{
    if ctx.knows(row) {
        return Ok(Some(by));
    }
    let [lines, later @ ..] = by else {
        return Ok(None);
    };
    if is_proof(alloc, checker, ctx, row, lines.as_slice())? {
        return Ok(Some(later));
    }
    Ok(None)
}

/// Whether there is one list of lines for each demanded row that is not known, in order, which proves it.
#[tactic(auto, unfolding(dtal_code::specs::Passing::unknown, dtal_code::specs::Passing::are_proved))]
pub(crate) fn are_proved(
    alloc: Global,
    checker: &mut Checker,
    ctx: &Context,
    mut demands: &[Form],
    mut by: &[Seq<Line>],
) -> Result<bool, Memory>
    requires ready { IsReady checker.old }
    requires countable { AreCountable by.now }
    ensures proved { IfOk result (λ test. test ≡ spec.are_proved ctx.now (spec.unknown ctx.now demands.entry.now) by.entry.now) }
    ensures ready { IfOk result (λ _. IsReady checker.new) }
{
    while let [row, later @ ..] = demands {
        let Some(rest) = after_row(alloc, checker, ctx, row, by)? else {
            return Ok(false);
        };
        by = rest;
        demands = later;
    }
    Ok(by.is_empty())
}
