//! Equal lines, values and types in vectors of their own.

ghost use Rattle.std.specs.Prelude.{◌≡◌, IfOk};

use proof_lines::Line;
use std::alloc::Global;
use xan_io::Memory;
use xan_lin::Form;
use xan_seq::Seq;

// An equal line.
fn copied_line(line: &Line) -> Line
    ensures { result ≡ line.now }
{
    match line {
        Line::Hyp(row) => Line::Hyp(row.copy()),
        Line::Goal => Line::Goal,
        Line::Comb {
            left_by,
            left,
            right_by,
            right,
        } => Line::Comb {
            left_by: *left_by,
            left: *left,
            right_by: *right_by,
            right: *right,
        },
        Line::Cut { row, by } => Line::Cut { row: *row, by: *by },
    }
}

/// The same lines.
pub(crate) fn copied_lines(alloc: Global, lines: &[Line]) -> Result<Seq<Line>, Memory>
    ensures { IfOk result (λ copied. copied ≡ lines.now) }
{
    let mut copied = Vec::new(alloc);
    for line in lines {
        copied.push(copied_line(line))?;
    }
    Ok(Seq::from_vec(copied))
}

/// The same values.
pub(crate) fn copied_values(
    alloc: Global,
    values: &[(u32, Form)],
) -> Result<Seq<(u32, Form)>, Memory>
    ensures { IfOk result (λ copied. copied ≡ values.now) }
{
    let mut copied = Vec::new(alloc);
    for value in values {
        copied.push((value.0, value.1.copy()))?;
    }
    Ok(Seq::from_vec(copied))
}
