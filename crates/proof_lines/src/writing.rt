//! The spelling of lines, as `by h +1v1+0;g;c 1 0 1 1`.
ghost use Rattle.std.specs.Prelude.{◌≡◌, ◌+◌, ◌<◌, ◌≤◌, ◌∷◌, ◌++◌, [], length, take, codes, decimal, OnOk, OnErr, vec_len};
ghost use Rattle.std.specs.Fmt.{signed_decimal};
ghost use Rattle.xan_lin.specs.Text.{form_text};
ghost use Rattle.arrayvec.specs.ArrayVec.{array_vec_len};
ghost use Rattle.proof_lines.specs.Spelling.{line_text, more_text, lines_text, spaced_multiple, spaced_cut, IsLinesText};

use crate::line::Line;
use crate::told::tell_lines;
use arrayvec::ArrayVec;
use itoa::Buffer;
use xan_lin::{Form, Memory};

// Room for the numbers of a line: four of at most 40 digits with a sign, and what stands between.
type Text = ArrayVec<u8, 200>;

// Appends a multiplier or a divisor.
fn put_integer(text: &mut Text, number: &i64)
    requires { array_vec_len text.old + 40 ≤ 200 }
    ensures items { text.new.items ≡ text.old.items ++ signed_decimal number.now }
    ensures few { array_vec_len text.new ≤ array_vec_len text.old + 40 }
{
    let mut digits = Buffer::new();
    let Ok(()) = text.try_extend_from_slice(digits.format(*number).as_bytes()) else {
        unreachable!()
    };
}

// Appends the number of a row.
fn put_row(text: &mut Text, row: u32)
    requires { array_vec_len text.old + 40 ≤ 200 }
    ensures items { text.new.items ≡ text.old.items ++ decimal row }
    ensures few { array_vec_len text.new ≤ array_vec_len text.old + 40 }
{
    let mut digits = Buffer::new();
    let Ok(()) = text.try_extend_from_slice(digits.format(row).as_bytes()) else {
        unreachable!()
    };
}

// Appends a multiplier and its row.
fn put_multiple(text: &mut Text, by: &i64, row: u32)
    requires { array_vec_len text.old + 81 ≤ 200 }
    ensures items { text.new.items ≡ text.old.items ++ spaced_multiple by.now row }
    ensures few { array_vec_len text.new ≤ array_vec_len text.old + 81 }
{
    put_integer(text, by);
    text.push(b' ');
    put_row(text, row);
}

// The line of a combination.
fn combination_text(left_by: &i64, left: u32, right_by: &i64, right: u32) -> Text
    ensures { result.items ≡ codes "c " ++ (spaced_multiple left_by.now left ++ (codes " " ++ spaced_multiple right_by.now right)) }
{
    let mut text = ArrayVec::new();
    text.push(b'c');
    text.push(b' ');
    put_multiple(&mut text, left_by, left);
    text.push(b' ');
    put_multiple(&mut text, right_by, right);
    text
}

// The line of a cut.
fn cut_text(row: u32, by: &i64) -> Text
    ensures { result.items ≡ codes "t " ++ spaced_cut row by.now }
{
    let mut text = ArrayVec::new();
    text.push(b't');
    text.push(b' ');
    put_row(&mut text, row);
    text.push(b' ');
    put_integer(&mut text, by);
    text
}

// Appends bytes, or nothing where memory runs out.
fn put(out: &mut Vec<u8>, bytes: &[u8]) -> Result<(), Memory>
    ensures written { OnOk result (out.new.items ≡ out.old.items ++ bytes.now) }
    ensures unchanged { OnErr result (out.new.items ≡ out.old.items) }
{
    let Ok(()) = out.extend_from_slice(bytes) else {
        return Err(Memory);
    };
    Ok(())
}

// Appends a hypothesis. What was there stays also where memory runs out.
fn put_hypothesis(out: &mut Vec<u8>, form: &Form) -> Result<(), Memory>
    ensures written { OnOk result (out.new.items ≡ out.old.items ++ (codes "h " ++ form_text form.now)) }
    ensures front { take (length out.old.items) out.new.items ≡ out.old.items }
{
    put(out, b"h ")?;
    form.write_form(out)
}

// Appends a line. What was there stays also where memory runs out.
#[tactic(auto, unfolding(crate::specs::Spelling::line_text))]
fn put_line(out: &mut Vec<u8>, line: &Line) -> Result<(), Memory>
    ensures written { OnOk result (out.new.items ≡ out.old.items ++ line_text line.now) }
    ensures front { take (length out.old.items) out.new.items ≡ out.old.items }
{
    match line {
        Line::Hyp(form) => put_hypothesis(out, form),
        Line::Goal => put(out, b"g"),
        Line::Comb {
            left_by,
            left,
            right_by,
            right,
        } => put(
            out,
            combination_text(left_by, *left, right_by, *right).as_slice(),
        ),
        Line::Cut { row, by } => put(out, cut_text(*row, by).as_slice()),
    }
}

// Appends a line behind a mark. What was there stays also where memory runs out.
fn put_behind(out: &mut Vec<u8>, mark: &[u8], line: &Line) -> Result<(), Memory>
    ensures written { OnOk result (out.new.items ≡ out.old.items ++ (mark.now ++ line_text line.now)) }
    ensures front { take (length out.old.items) out.new.items ≡ out.old.items }
{
    put(out, mark)?;
    put_line(out, line)
}

// Appends the lines behind the first one. What was there stays also where memory runs out.
fn put_more(out: &mut Vec<u8>, lines: &[Line]) -> Result<(), Memory>
    ensures written { OnOk result (out.new.items ≡ out.old.items ++ more_text lines.now) }
    ensures front { take (length out.old.items) out.new.items ≡ out.old.items }
{
    'lines: for line in lines {
        put_behind(out, b";", line)?;
    }
    Ok(())
}

// Appends the lines. What was there stays also where memory runs out.
fn put_lines(out: &mut Vec<u8>, lines: &[Line]) -> Result<(), Memory>
    ensures written { OnOk result (out.new.items ≡ out.old.items ++ lines_text lines.now) }
    ensures front { take (length out.old.items) out.new.items ≡ out.old.items }
{
    let [first, rest @ ..] = lines else {
        return Ok(());
    };
    put_behind(out, b"by ", first)?;
    put_more(out, rest)
}

/// Appends the spelling of the lines. It spells them, and no others, so that it is what [`read_lines`](crate::read_lines) reads as these
/// lines. Where memory runs out nothing is appended.
pub fn write_lines(lines: &[Line], out: &mut Vec<u8>) -> Result<(), Memory>
    requires some { 1 ≤ length lines.now }
    requires few { length lines.now ≤ 4294967295 }
    ensures spelled { IsLinesText lines.now (lines_text lines.now) }
    ensures written { OnOk result (out.new.items ≡ out.old.items ++ lines_text lines.now) }
    ensures unchanged { OnErr result (out.new.items ≡ out.old.items) }
{
    tell_lines(lines);
    let start = out.len();
    let answer = put_lines(out, lines);
    if answer.is_err() {
        out.truncate(start);
    }
    answer
}
