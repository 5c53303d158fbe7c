//! The reading of what stands behind the word of an instruction.

ghost use Rattle.std.specs.Prelude.{◌≡◌, ◌≤◌, [], length};
ghost use Rattle.xan_read.specs.Code.{Gives, Reads};
ghost use Rattle.dtal_text.specs.Places.{register};
ghost use Rattle.dtal_text.specs.OperandReading.{two_of, pair, three, places, on_three, operands};
ghost use Rattle.dtal_text.specs.OperandCode.{three_op, listed_places};
ghost use Rattle.dtal_text.specs.TypeReading.{any_number};
ghost use Rattle.dtal_text.specs.declared.word.OpWord.TheVariants as word_of;

use crate::bounded::Bounded;
use crate::chain::read_chain;
use crate::edges::read_edge;
use crate::items::PlaceItem;
use crate::places::{read_place, read_register};
use crate::tables::{read_comparison, read_truth};
use crate::types::{read_any_number, read_type_number};
use crate::word::OpWord;
use arrayvec::ArrayVec;
use dtal_code::instruction::Op;
use dtal_code::limits::MOST_LISTED;
use std::alloc::Global;
use xan_lin::Form;
use xan_read::{Fault, ReadError, integer, literal};
use xan_seq::Seq;

/// An instruction, and the values that it lists where it goes to a label.
pub(crate) type Way = (Op, Seq<(u32, Form)>);

/// The magnitude of the least number.
const BELOW: u64 = 9223372036854775808;

/// The greatest number.
const ABOVE: u64 = 9223372036854775807;

// An instruction that goes to no label.
fn stays(alloc: Global, op: Op) -> Way
    ensures { result ≡ (op, []) }
{
    (op, Seq::from_vec(Vec::new(alloc)))
}

fn read_pair(bytes: &[u8]) -> Result<((u8, u8), &[u8]), Fault>
    ensures { Gives (λ x. (x.0, x.1.now)) result (pair bytes.now) }
{
    let (ra, rest) = read_register(bytes)?;
    let (rb, rest) = read_register(literal(rest, b" ")?)?;
    Ok(((ra, rb), rest))
}

fn read_three(bytes: &[u8]) -> Result<((u8, (u8, u8)), &[u8]), Fault>
    ensures { Gives (λ x. (x.0, x.1.now)) result (three bytes.now) }
{
    let (rd, rest) = read_register(bytes)?;
    let (sources, rest) = read_pair(literal(rest, b" ")?)?;
    Ok(((rd, sources), rest))
}

// Places up to a bracket.
fn read_listed_places(alloc: Global, bytes: &[u8]) -> Result<(Vec<u8>, &[u8]), ReadError>
    ensures { Reads (λ x. (x.0.items, x.1.now)) result (listed_places bytes.now) }
{
    let list = Bounded {
        between: b' ',
        mark: b')',
        item: PlaceItem,
    };
    read_chain(alloc, &list, (true, u64::from(MOST_LISTED)), bytes)
}

// The same places.
fn as_array(places: &[u8]) -> ArrayVec<u8, 8>
    requires { length places.now ≤ 8 }
    ensures { result.items ≡ places.now }
{
    let mut made = ArrayVec::new();
    let Ok(()) = made.try_extend_from_slice(places) else {
        unreachable!()
    };
    made
}

// Places in brackets.
#[tactic(auto, unfolding(crate::specs::OperandReading::places))]
fn read_places(alloc: Global, bytes: &[u8]) -> Result<(ArrayVec<u8, 8>, &[u8]), ReadError>
    ensures { Reads (λ x. (x.0, x.1.now)) result (places bytes.now) }
{
    let rest = literal(bytes, b"(")?;
    let (listed, rest) = read_listed_places(alloc, rest)?;
    Ok((as_array(listed.as_slice()), rest))
}

// ---- by words

#[tactic(auto, unfolding(crate::specs::OperandReading::operands))]
fn read_li(alloc: Global, bytes: &[u8]) -> Result<(Way, &[u8]), Fault>
    ensures { Gives (λ x. (x.0, x.1.now)) result (operands word_of.Li bytes.now) }
{
    let (rd, rest) = read_register(bytes)?;
    let (value, rest) = integer(literal(rest, b" ")?, BELOW, ABOVE)?;
    Ok((stays(alloc, Op::Li(rd, value)), rest))
}

#[tactic(auto, unfolding(crate::specs::OperandReading::operands))]
fn read_lb(alloc: Global, bytes: &[u8]) -> Result<(Way, &[u8]), Fault>
    ensures { Gives (λ x. (x.0, x.1.now)) result (operands word_of.Lb bytes.now) }
{
    let (rd, rest) = read_register(bytes)?;
    let (truth, rest) = read_truth(literal(rest, b" ")?)?;
    Ok((stays(alloc, Op::Lb(rd, truth)), rest))
}

#[tactic(auto, unfolding(crate::specs::OperandReading::operands))]
fn read_mv(alloc: Global, bytes: &[u8]) -> Result<(Way, &[u8]), Fault>
    ensures { Gives (λ x. (x.0, x.1.now)) result (operands word_of.Mv bytes.now) }
{
    let (p, rest) = read_place(bytes)?;
    let (q, rest) = read_place(literal(rest, b" ")?)?;
    Ok((stays(alloc, Op::Mv(p, q)), rest))
}

// The instruction of the word over three registers.
fn three_op(word: OpWord, ra: u8, rb: u8, rc: u8) -> Op
    ensures { result ≡ three_op word ra rb rc }
{
    match word {
        OpWord::Add => Op::Add(ra, rb, rc),
        OpWord::Sub => Op::Sub(ra, rb, rc),
        OpWord::Mul => Op::Mul(ra, rb, rc),
        OpWord::Div => Op::Div(ra, rb, rc),
        OpWord::Mod => Op::Mod(ra, rb, rc),
        OpWord::Ld => Op::Ld(ra, rb, rc),
        _ => Op::St(ra, rb, rc),
    }
}

fn read_on_three(alloc: Global, bytes: &[u8], word: OpWord) -> Result<(Way, &[u8]), Fault>
    ensures { Gives (λ x. (x.0, x.1.now)) result (on_three (three_op word) bytes.now) }
{
    let ((ra, (rb, rc)), rest) = read_three(bytes)?;
    Ok((stays(alloc, three_op(word, ra, rb, rc)), rest))
}

#[tactic(auto, unfolding(crate::specs::OperandReading::operands, xan_read::specs::Combinators::literal))]
fn read_set(alloc: Global, bytes: &[u8]) -> Result<(Way, &[u8]), Fault>
    ensures { Gives (λ x. (x.0, x.1.now)) result (operands word_of.Set bytes.now) }
{
    let (c, rest) = read_comparison(bytes)?;
    let ((rd, (ra, rb)), rest) = read_three(rest)?;
    Ok((stays(alloc, Op::Set(c, rd, ra, rb)), rest))
}

// Behind the comparison.
fn read_compared(bytes: &[u8]) -> Result<(((u8, u8), u32), &[u8]), Fault>
    ensures { Gives (λ x. (x.0, x.1.now)) result (two_of pair any_number bytes.now) }
{
    let (sources, rest) = read_pair(bytes)?;
    let (label, rest) = read_any_number(literal(rest, b" ")?)?;
    Ok(((sources, label), rest))
}

#[tactic(auto, unfolding(crate::specs::OperandReading::operands, xan_read::specs::Combinators::literal))]
fn read_br(alloc: Global, bytes: &[u8]) -> Result<(Way, &[u8]), ReadError>
    ensures { Reads (λ x. (x.0, x.1.now)) result (operands word_of.Br bytes.now) }
{
    let (c, rest) = read_comparison(bytes)?;
    let (((ra, rb), label), rest) = read_compared(rest)?;
    let (edge, rest) = read_edge(alloc, literal(rest, b" ")?)?;
    Ok(((Op::Br(c, ra, rb, label), edge), rest))
}

// A register and a label.
fn read_tested(bytes: &[u8]) -> Result<((u8, u32), &[u8]), Fault>
    ensures { Gives (λ x. (x.0, x.1.now)) result (two_of register any_number bytes.now) }
{
    let (ra, rest) = read_register(bytes)?;
    let (label, rest) = read_any_number(literal(rest, b" ")?)?;
    Ok(((ra, label), rest))
}

#[tactic(auto, unfolding(crate::specs::OperandReading::operands))]
fn read_bt(alloc: Global, bytes: &[u8]) -> Result<(Way, &[u8]), ReadError>
    ensures { Reads (λ x. (x.0, x.1.now)) result (operands word_of.Bt bytes.now) }
{
    let ((ra, label), rest) = read_tested(bytes)?;
    let (edge, rest) = read_edge(alloc, literal(rest, b" ")?)?;
    Ok(((Op::Bt(ra, label), edge), rest))
}

#[tactic(auto, unfolding(crate::specs::OperandReading::operands))]
fn read_bf(alloc: Global, bytes: &[u8]) -> Result<(Way, &[u8]), ReadError>
    ensures { Reads (λ x. (x.0, x.1.now)) result (operands word_of.Bf bytes.now) }
{
    let ((ra, label), rest) = read_tested(bytes)?;
    let (edge, rest) = read_edge(alloc, literal(rest, b" ")?)?;
    Ok(((Op::Bf(ra, label), edge), rest))
}

#[tactic(auto, unfolding(crate::specs::OperandReading::operands))]
fn read_jmp(alloc: Global, bytes: &[u8]) -> Result<(Way, &[u8]), ReadError>
    ensures { Reads (λ x. (x.0, x.1.now)) result (operands word_of.Jmp bytes.now) }
{
    let (label, rest) = read_any_number(bytes)?;
    let (edge, rest) = read_edge(alloc, literal(rest, b" ")?)?;
    Ok(((Op::Jmp(label), edge), rest))
}

#[tactic(auto, unfolding(crate::specs::OperandReading::operands))]
fn read_call(alloc: Global, bytes: &[u8]) -> Result<(Way, &[u8]), ReadError>
    ensures { Reads (λ x. (x.0, x.1.now)) result (operands word_of.Call bytes.now) }
{
    let (fun, rest) = read_any_number(bytes)?;
    let (p, rest) = read_place(literal(rest, b" ")?)?;
    let (args, rest) = read_places(alloc, literal(rest, b" ")?)?;
    Ok((stays(alloc, Op::Call(fun, p, args)), rest))
}

#[tactic(auto, unfolding(crate::specs::OperandReading::operands))]
fn read_ret(alloc: Global, bytes: &[u8]) -> Result<(Way, &[u8]), Fault>
    ensures { Gives (λ x. (x.0, x.1.now)) result (operands word_of.Ret bytes.now) }
{
    let (p, rest) = read_place(bytes)?;
    Ok((stays(alloc, Op::Ret(p)), rest))
}

#[tactic(auto, unfolding(crate::specs::OperandReading::operands))]
fn read_len(alloc: Global, bytes: &[u8]) -> Result<(Way, &[u8]), Fault>
    ensures { Gives (λ x. (x.0, x.1.now)) result (operands word_of.Len bytes.now) }
{
    let ((rd, ra), rest) = read_pair(bytes)?;
    Ok((stays(alloc, Op::Len(rd, ra)), rest))
}

#[tactic(auto, unfolding(crate::specs::OperandReading::operands))]
fn read_new(alloc: Global, bytes: &[u8]) -> Result<(Way, &[u8]), Fault>
    ensures { Gives (λ x. (x.0, x.1.now)) result (operands word_of.New bytes.now) }
{
    let (rd, rest) = read_register(bytes)?;
    let (cells, rest) = read_type_number(literal(rest, b" ")?)?;
    let ((rn, rv), rest) = read_pair(literal(rest, b" ")?)?;
    Ok((stays(alloc, Op::New(rd, cells, rn, rv)), rest))
}

#[tactic(auto, unfolding(crate::specs::OperandReading::operands))]
fn read_tup(alloc: Global, bytes: &[u8]) -> Result<(Way, &[u8]), ReadError>
    ensures { Reads (λ x. (x.0, x.1.now)) result (operands word_of.Tup bytes.now) }
{
    let (p, rest) = read_place(bytes)?;
    let (tuple, rest) = read_type_number(literal(rest, b" ")?)?;
    let (parts, rest) = read_places(alloc, literal(rest, b" ")?)?;
    Ok((stays(alloc, Op::Tup(p, tuple, parts)), rest))
}

#[tactic(auto, unfolding(crate::specs::OperandReading::operands))]
fn read_untup(alloc: Global, bytes: &[u8]) -> Result<(Way, &[u8]), ReadError>
    ensures { Reads (λ x. (x.0, x.1.now)) result (operands word_of.Untup bytes.now) }
{
    let (tuple, rest) = read_type_number(bytes)?;
    let (q, rest) = read_place(literal(rest, b" ")?)?;
    let (parts, rest) = read_places(alloc, literal(rest, b" ")?)?;
    Ok((stays(alloc, Op::Untup(tuple, q, parts)), rest))
}

#[tactic(auto, unfolding(crate::specs::OperandReading::operands))]
fn read_print(alloc: Global, bytes: &[u8]) -> Result<(Way, &[u8]), Fault>
    ensures { Gives (λ x. (x.0, x.1.now)) result (operands word_of.Print bytes.now) }
{
    let (ra, rest) = read_register(bytes)?;
    Ok((stays(alloc, Op::Print(ra)), rest))
}

/// What stands behind the word: the instruction, and what it lists where it goes to a label.
#[tactic(auto, unfolding(crate::specs::OperandReading::operands))]
pub(crate) fn read_operands(
    alloc: Global,
    bytes: &[u8],
    word: OpWord,
) -> Result<(Way, &[u8]), ReadError>
    ensures { Reads (λ x. (x.0, x.1.now)) result (operands word bytes.now) }
{
    match word {
        OpWord::Li => Ok(read_li(alloc, bytes)?),
        OpWord::Lb => Ok(read_lb(alloc, bytes)?),
        OpWord::Mv => Ok(read_mv(alloc, bytes)?),
        OpWord::Add => Ok(read_on_three(alloc, bytes, OpWord::Add)?),
        OpWord::Sub => Ok(read_on_three(alloc, bytes, OpWord::Sub)?),
        OpWord::Mul => Ok(read_on_three(alloc, bytes, OpWord::Mul)?),
        OpWord::Div => Ok(read_on_three(alloc, bytes, OpWord::Div)?),
        OpWord::Mod => Ok(read_on_three(alloc, bytes, OpWord::Mod)?),
        OpWord::Ld => Ok(read_on_three(alloc, bytes, OpWord::Ld)?),
        OpWord::St => Ok(read_on_three(alloc, bytes, OpWord::St)?),
        OpWord::Set => Ok(read_set(alloc, bytes)?),
        OpWord::Br => read_br(alloc, bytes),
        OpWord::Bt => read_bt(alloc, bytes),
        OpWord::Bf => read_bf(alloc, bytes),
        OpWord::Jmp => read_jmp(alloc, bytes),
        OpWord::Call => read_call(alloc, bytes),
        OpWord::Ret => Ok(read_ret(alloc, bytes)?),
        OpWord::Len => Ok(read_len(alloc, bytes)?),
        OpWord::New => Ok(read_new(alloc, bytes)?),
        OpWord::Tup => read_tup(alloc, bytes),
        OpWord::Untup => read_untup(alloc, bytes),
        OpWord::Print => Ok(read_print(alloc, bytes)?),
    }
}
