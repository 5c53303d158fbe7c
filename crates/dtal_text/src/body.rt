//! The reading of the lines of a function.

ghost use Rattle.std.specs.Prelude.{◌≡◌, ◌<◌, ◌≤◌, ◌+◌, ◌-◌, ◌^◌, ◌++◌, codes, decimal, Some};
ghost use Rattle.xan_read.specs.Code.{Gives, Reads};
ghost use Rattle.xan_read.specs.Combinators.{made, behind, literal};
ghost use Rattle.dtal_text.specs.Building.{joined, built, nothing};
ghost use Rattle.dtal_text.specs.LineReading.{line, lines, line_behind, label_state, behind_line, stand_behind, instr_line, proof};
ghost use Rattle.dtal_text.specs.OperandReading.{operands};
ghost use Rattle.dtal_text.specs.ProgramReading.{blocks};
ghost use Rattle.dtal_text.specs.declared.line.BodyLine.TheVariants as line_is;
ghost use Rattle.dtal_code.specs.Grammar.{is_last};

use crate::building::Building;
use crate::chain::read_some;
use crate::items::LineItem;
use crate::labels::read_label_state;
use crate::line::{BodyLine, Lines, Stand};
use crate::operands::read_operands;
use crate::word::{LineWord, OpWord};
use crate::words::read_line_word;
use dtal_code::Block;
use dtal_code::instruction::Op;
use dtal_code::limits::LAST_NUMBER;
use itoa::Buffer;
use proof_lines::Line;
use std::alloc::Global;
use xan_read::{Fault, ReadError, literal};
use xan_seq::Seq;

/// The most lines of a proof.
const MOST_LINES: u64 = LAST_NUMBER as u64;

// Lines of a proof, and the end of their line.
#[tactic(auto, unfolding(crate::specs::LineReading::proof))]
fn read_proof(alloc: Global, bytes: &[u8]) -> Result<(Seq<Line>, &[u8]), ReadError>
    ensures { Reads (λ x. (x.0, x.1.now)) result (proof bytes.now) }
{
    let (lines, rest) = read_some(alloc, b';', b'\n', MOST_LINES, LineItem, bytes)?;
    Ok((Seq::from_vec(lines), rest))
}

// An instruction behind its word, and the end of its line.
#[tactic(auto, unfolding(crate::specs::LineReading::instr_line))]
fn read_instr(
    alloc: Global,
    bytes: &[u8],
    word: OpWord,
) -> Result<(Option<BodyLine>, &[u8]), ReadError>
    ensures { Reads (λ x. (x.0, x.1.now)) result (instr_line (operands word) bytes.now) }
{
    let ((op, edge), rest) = read_operands(alloc, bytes, word)?;
    let rest = literal(rest, b"\n")?;
    Ok((Some(BodyLine::Instr(op, edge)), rest))
}

// The bytes behind the number and a space.
fn after_number(bytes: &[u8], number: u64) -> Result<&[u8], Fault>
    ensures { Gives (λ rest. rest.now) result (literal (decimal number ++ codes " ") bytes.now) }
{
    let rest = literal(bytes, Buffer::new().format(number).as_bytes())?;
    literal(rest, b" ")
}

// A label of this number behind its word.
fn read_label(
    alloc: Global,
    bytes: &[u8],
    number: u64,
) -> Result<(Option<BodyLine>, &[u8]), ReadError>
    ensures { Reads (λ x. (x.0, x.1.now)) result (behind (decimal number ++ codes " ") (made (λ label. Some (line_is.Label label)) label_state) bytes.now) }
{
    let (state, rest) = read_label_state(alloc, after_number(bytes, number)?)?;
    Ok((Some(BodyLine::Label(state)), rest))
}

// What stands behind the word of a line.
#[tactic(auto, unfolding(crate::specs::LineReading::line_behind))]
fn read_line_behind(
    alloc: Global,
    bytes: &[u8],
    state: Lines,
    word: LineWord,
) -> Result<(Option<BodyLine>, &[u8]), ReadError>
    requires { state.labels < 2 ^ 64 - 1 }
    ensures { Reads (λ x. (x.0, x.1.now)) result (line_behind state word bytes.now) }
{
    match word {
        LineWord::Op(op) => read_instr(alloc, bytes, op),
        LineWord::By => {
            let (lines, rest) = read_proof(alloc, bytes)?;
            Ok((Some(BodyLine::By(lines)), rest))
        }
        LineWord::Label => read_label(alloc, bytes, state.labels + 1),
        LineWord::End => Ok((None, bytes)),
    }
}

// A line of a function, or none at its end, and the bytes behind it.
#[tactic(auto, unfolding(crate::specs::LineReading::line))]
fn read_body_line(
    alloc: Global,
    state: Lines,
    bytes: &[u8],
) -> Result<(Option<BodyLine>, &[u8]), ReadError>
    requires labels { state.labels < 2 ^ 64 - 1 }
    requires instrs { state.instrs < 2 ^ 64 - 1 }
    ensures { Reads (λ x. (x.0, x.1.now)) result (line state bytes.now) }
{
    let (word, rest) = read_line_word(bytes, state)?;
    read_line_behind(alloc, rest, state, word)
}

// Whether no instruction behind it in its block is reached.
fn is_last(op: &Op) -> bool
    ensures { result ≡ is_last op.now }
{
    match op {
        Op::Jmp(_) | Op::Ret(_) => true,
        _ => false,
    }
}

// Where a line stands behind an instruction.
fn stand_behind(op: &Op) -> Stand
    ensures { result ≡ stand_behind (is_last op.now) }
{
    if is_last(op) {
        Stand::Last
    } else {
        Stand::Within
    }
}

// What was read behind a line.
fn behind_line(state: Lines, line: &BodyLine) -> Lines
    requires labels { state.labels < 2 ^ 64 - 1 }
    requires instrs { state.instrs < 2 ^ 64 - 1 }
    ensures exact { result ≡ behind_line state line.now }
    ensures labels { result.labels ≤ state.labels + 1 }
    ensures instrs { result.instrs ≤ state.instrs + 1 }
{
    match line {
        BodyLine::Instr(op, _) => Lines {
            labels: state.labels,
            instrs: state.instrs + 1,
            stand: stand_behind(op),
        },
        BodyLine::By(_) => state,
        BodyLine::Label(_) => Lines {
            labels: state.labels + 1,
            instrs: state.instrs,
            stand: Stand::First,
        },
    }
}

// The lines up to the end of the function, which go on with what is made, and the bytes behind them.
fn read_lines<'a>(
    alloc: Global,
    bytes: &'a [u8],
    building: &mut Building,
) -> Result<&'a [u8], ReadError>
    ensures { Reads (λ rest. (joined building.new nothing, rest.now)) result (built building.old (lines bytes.now)) }
{
    let mut state = Lines {
        labels: 0,
        instrs: 0,
        stand: Stand::First,
    };
    let mut rest = bytes;
    'lines: for _ in 0..bytes.len() {
        let (line, others) = read_body_line(alloc, state, rest)?;
        match line {
            None => return Ok(others),
            Some(found) => {
                state = behind_line(state, &found);
                building.add(alloc, found)?;
                rest = others;
            }
        }
    }
    let (line, others) = read_body_line(alloc, state, rest)?;
    match line {
        None => Ok(others),
        Some(_) => Err(ReadError::Fault(Fault { left: others.len() })),
    }
}

/// The blocks of a function, and the bytes behind it.
pub(crate) fn read_blocks(alloc: Global, bytes: &[u8]) -> Result<(Seq<Block>, &[u8]), ReadError>
    ensures { Reads (λ x. (x.0, x.1.now)) result (blocks bytes.now) }
{
    let mut building = Building::new(alloc);
    let rest = read_lines(alloc, bytes, &mut building)?;
    Ok((building.finish()?, rest))
}
