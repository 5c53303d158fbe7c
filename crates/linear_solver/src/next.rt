//! The next system: the rows without a variable, and the sums of those with it.
ghost use Rattle.std.specs.Prelude.{◌≡◌, ◌^◌, ◌<◌, ◌≤◌, [], length, if◌then◌else◌, Ok, Err};
ghost use Rattle.std.specs.List.{slice_index_or};
ghost use Rattle.solver_rows.specs.SystemRows.{has_sign, size};
ghost use Rattle.linear_solver.specs.Systems.{with_sign, limited, settle, with_sum, with_sums, with_all_sums, next_rows};
ghost use Rattle.solver_rows.specs.declared.source.Sign.TheVariants.{Positive, Negative};
ghost use Rattle.linear_solver.specs.Reducing.{Gives};
ghost use Rattle.linear_solver.specs.Region.{IsOpen, no_row, IsSummed};

use crate::choose::MOST_ROWS;
use crate::workspace::Workspace;
use solver_rows::{NewRow, Sign, Source, Step, combine, multipliers_for, tighten};
use xan_lin::LimitKind;

/// Makes the next system: the rows without the variable of this column, reduced, and then the sums of two rows in which it goes out.
#[tactic(auto, unfolding(crate::specs::Systems::next_rows))]
pub(crate) fn next_rows(column: usize, work: &mut Workspace) -> Result<(), LimitKind>
    requires ready { IsOpen column work.old }
    requires none { work.old.made ≡ [] }
    ensures made { Gives result work.new.made (next_rows (slice_index_or work.old.vars column 0) work.old.rows) }
    ensures kept { work.new ≡ record work.old { made = work.new.made } }
{
    work.keep_without(column);
    with_all_sums(column, work)
}

// Puts the sums of each positive row and each negative one to reduced rows.
#[tactic(auto, unfolding(crate::specs::Systems::with_all_sums, crate::specs::Systems::with_sign))]
fn with_all_sums(column: usize, work: &mut Workspace) -> Result<(), LimitKind>
    requires ready { IsOpen column work.old }
    requires few { length work.old.made ≤ 2000 }
    ensures made { Gives result work.new.made (with_all_sums (slice_index_or work.old.vars column 0) (with_sign Positive (slice_index_or work.old.vars column 0) work.old.rows)
        (with_sign Negative (slice_index_or work.old.vars column 0) work.old.rows) work.old.made) }
    ensures kept { work.new ≡ record work.old { made = work.new.made } }
{
    'rows: for at in 0..work.count() {
        match with_row_sums(column, at, work) {
            Ok(()) => {}
            Err(kind) => return Err(kind),
        }
    }
    Ok(())
}

// Puts the sums of a row, where it is positive, and each negative one to reduced rows.
fn with_row_sums(column: usize, at: usize, work: &mut Workspace) -> Result<(), LimitKind>
    requires ready { IsOpen column work.old }
    requires few { length work.old.made ≤ 2000 }
    requires live { at < length work.old.rows }
    ensures made { Gives result work.new.made (if has_sign Positive (slice_index_or work.old.vars column 0) (slice_index_or work.old.rows at no_row)
        then with_sums (slice_index_or work.old.vars column 0) (slice_index_or work.old.rows at no_row) (with_sign Negative (slice_index_or work.old.vars column 0) work.old.rows) work.old.made
        else Ok work.old.made) }
    ensures kept { work.new ≡ record work.old { made = work.new.made } }
    ensures few { result ≡ Ok tt → length work.new.made ≤ 2000 }
{
    if has_sign(Sign::Positive, column, at, work) {
        with_sums(column, at, work)
    } else {
        Ok(())
    }
}

// Puts the sums of one positive row and each negative one to reduced rows.
#[tactic(auto, unfolding(crate::specs::Systems::with_sums, crate::specs::Systems::with_sign))]
fn with_sums(column: usize, positive: usize, work: &mut Workspace) -> Result<(), LimitKind>
    requires ready { IsOpen column work.old }
    requires few { length work.old.made ≤ 2000 }
    requires live { positive < length work.old.rows }
    ensures made { Gives result work.new.made (with_sums (slice_index_or work.old.vars column 0) (slice_index_or work.old.rows positive no_row)
        (with_sign Negative (slice_index_or work.old.vars column 0) work.old.rows) work.old.made) }
    ensures kept { work.new ≡ record work.old { made = work.new.made } }
    ensures few { result ≡ Ok tt → length work.new.made ≤ 2000 }
{
    'rows: for at in 0..work.count() {
        match with_row_sum(column, positive, at, work) {
            Ok(()) => {}
            Err(kind) => return Err(kind),
        }
    }
    Ok(())
}

// Puts the sum of a positive row and another, where that is negative, to reduced rows.
fn with_row_sum(
    column: usize,
    positive: usize,
    at: usize,
    work: &mut Workspace,
) -> Result<(), LimitKind>
    requires ready { IsOpen column work.old }
    requires few { length work.old.made ≤ 2000 }
    requires live { positive < length work.old.rows }
    requires other { at < length work.old.rows }
    ensures made { Gives result work.new.made (if has_sign Negative (slice_index_or work.old.vars column 0) (slice_index_or work.old.rows at no_row)
        then with_sum (slice_index_or work.old.vars column 0) (slice_index_or work.old.rows positive no_row) (slice_index_or work.old.rows at no_row) work.old.made else Ok work.old.made) }
    ensures kept { work.new ≡ record work.old { made = work.new.made } }
    ensures few { result ≡ Ok tt → length work.new.made ≤ 2000 }
{
    if has_sign(Sign::Negative, column, at, work) {
        with_sum(column, positive, at, work)
    } else {
        Ok(())
    }
}

// Puts the sum of two rows to reduced ones.
#[tactic(auto, unfolding(crate::specs::Systems::with_sum))]
fn with_sum(
    column: usize,
    positive: usize,
    negative: usize,
    work: &mut Workspace,
) -> Result<(), LimitKind>
    requires ready { IsOpen column work.old }
    requires few { length work.old.made ≤ 2000 }
    requires live { positive < length work.old.rows }
    requires other { negative < length work.old.rows }
    ensures made { Gives result work.new.made (with_sum (slice_index_or work.old.vars column 0) (slice_index_or work.old.rows positive no_row)
        (slice_index_or work.old.rows negative no_row) work.old.made) }
    ensures kept { work.new ≡ record work.old { made = work.new.made } }
    ensures few { result ≡ Ok tt → length work.new.made ≤ 2000 }
{
    let mut row = NewRow::blank();
    match sum_up(column, positive, negative, work, &mut row) {
        Some(()) => {
            work.settle(&row);
            limited(work)
        }
        None => Err(LimitKind::Magnitude),
    }
}

// Stops where the rows are more than a system may have.
fn limited(work: &Workspace) -> Result<(), LimitKind>
    ensures made { Gives result work.now.made (limited work.now.made) }
    ensures few { result ≡ Ok tt → length work.now.made ≤ 2000 }
{
    if work.count_made() > MOST_ROWS {
        Err(LimitKind::System)
    } else {
        Ok(())
    }
}

// Leaves the sum of two rows in which the variable goes out, tightened. `None` comes where a number of it is past the bound before that.
fn sum_up(
    column: usize,
    positive: usize,
    negative: usize,
    work: &Workspace,
    row: &mut NewRow,
) -> Option<()>
    requires column { column < length work.now.vars }
    requires live { positive < length work.now.rows }
    requires other { negative < length work.now.rows }
    ensures { IsSummed work.now.vars result row.new (size (slice_index_or work.now.vars column 0) (slice_index_or work.now.rows positive no_row))
        (size (slice_index_or work.now.vars column 0) (slice_index_or work.now.rows negative no_row))
        (slice_index_or work.now.rows positive no_row) (slice_index_or work.now.rows negative no_row) }
{
    let vars = work.vars();
    let by = multipliers_for(size(column, positive, work), size(column, negative, work));
    let Some(()) = combine(
        work.constant(positive),
        work.coefficients(positive),
        work.constant(negative),
        work.coefficients(negative),
        &by,
        &mut row.cells,
    ) else {
        return None;
    };
    let step = Step::Comb {
        left_by: by.first,
        left: work.line(positive),
        right_by: by.second,
        right: work.line(negative),
    };
    tighten(vars, Source::New(step), row);
    Some(())
}

// The magnitude of the coefficient of the variable in a row.
fn size(column: usize, at: usize, work: &Workspace) -> u64
    requires column { column < length work.now.vars }
    requires live { at < length work.now.rows }
    ensures exact { result ≡ size (slice_index_or work.now.vars column 0) (slice_index_or work.now.rows at no_row) }
    ensures small { result < 2 ^ 62 }
{
    let _cells = work.coefficients(at);
    work.coefficient(at, column).unsigned_abs()
}

// Whether the coefficient of the variable in a row has this sign.
fn has_sign(sign: Sign, column: usize, at: usize, work: &Workspace) -> bool
    requires column { column < length work.now.vars }
    requires live { at < length work.now.rows }
    ensures { result ≡ has_sign sign (slice_index_or work.now.vars column 0) (slice_index_or work.now.rows at no_row) }
{
    let _vars = work.vars();
    work.signs(at).has(sign, column)
}
