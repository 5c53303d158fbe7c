//! The instruction that two words code.

ghost use Rattle.std.specs.Prelude.{length, ◌≡◌, ◌↔◌, ◌%◌, ◌/◌, ◌<◌, ◌≤◌, Some, IfSome, IsTrue};
ghost use Rattle.std.specs.List.{All};
ghost use Rattle.dtal_code.specs.declared.limits.TheConstants.{MOST_LISTED};
ghost use Rattle.dtal_code.specs.declared.object.RunOp.{RunOp};
ghost use Rattle.dtal_code.specs.Guessed as spec;
ghost use Rattle.dtal_code.specs.ObjectWords.{IsRunOp, IsPair};
ghost use Rattle.dtal_code.specs.Places.{IsPlace};

use crate::coding::encode;
use crate::instruction::Cmp;
use crate::limits::LAST_TYPE;
use crate::object::RunOp;
use arrayvec::ArrayVec;

/// The instruction whose pair of words this is. It takes no memory.
#[tactic(auto, using(crate::proofs::Codings::pair_guessed))]
pub fn decode(first: u64, second: u64) -> Option<RunOp>
    ensures found { IfSome result (IsPair first second) }
    ensures only { (op : RunOp) → IsPair first second op → result ≡ Some op }
{
    let op = guess(first, second)?;
    if !is_in_range(&op) {
        return None;
    }
    let (one, two) = encode(&op);
    if one == first && two == second {
        Some(op)
    } else {
        None
    }
}

// What the words may code.
fn guess(first: u64, second: u64) -> Option<RunOp>
    ensures read { result ≡ spec.guessed first second }
    ensures wide { IfSome result spec.IsWide }
{
    match first % 256 {
        1 => Some(RunOp::Li(byte(first, 256), second.cast_signed())),
        2 => Some(RunOp::Lb(byte(first, 256), byte(first, 65_536) == 1)),
        3 => Some(RunOp::Mv(byte(first, 256), byte(first, 65_536))),
        4 => Some(RunOp::Add(
            byte(first, 256),
            byte(first, 65_536),
            byte(first, 16_777_216),
        )),
        5 => Some(RunOp::Sub(
            byte(first, 256),
            byte(first, 65_536),
            byte(first, 16_777_216),
        )),
        6 => Some(RunOp::Mul(
            byte(first, 256),
            byte(first, 65_536),
            byte(first, 16_777_216),
        )),
        7 => Some(RunOp::Div(
            byte(first, 256),
            byte(first, 65_536),
            byte(first, 16_777_216),
        )),
        8 => Some(RunOp::Mod(
            byte(first, 256),
            byte(first, 65_536),
            byte(first, 16_777_216),
        )),
        9 => Some(RunOp::Set(
            comparison_of(high(first)),
            byte(first, 256),
            byte(first, 65_536),
            byte(first, 16_777_216),
        )),
        opcode => guess_going(opcode, first, second),
    }
}

fn guess_going(opcode: u64, first: u64, second: u64) -> Option<RunOp>
    ensures read { result ≡ spec.going opcode first second }
    ensures wide { IfSome result spec.IsWide }
{
    match opcode {
        10 => Some(RunOp::Br(
            comparison_of(u32::from(byte(first, 256))),
            byte(first, 65_536),
            byte(first, 16_777_216),
            second,
        )),
        11 => Some(RunOp::Bt(byte(first, 256), second)),
        12 => Some(RunOp::Bf(byte(first, 256), second)),
        13 => Some(RunOp::Jmp(second)),
        15 => Some(RunOp::Ret(byte(first, 256))),
        16 => Some(RunOp::Len(byte(first, 256), byte(first, 65_536))),
        17 => Some(RunOp::Ld(
            byte(first, 256),
            byte(first, 65_536),
            byte(first, 16_777_216),
        )),
        18 => Some(RunOp::St(
            byte(first, 256),
            byte(first, 65_536),
            byte(first, 16_777_216),
        )),
        19 => Some(RunOp::New(
            byte(first, 256),
            high(first),
            byte(first, 65_536),
            byte(first, 16_777_216),
        )),
        22 => Some(RunOp::Print(byte(first, 256))),
        _ => guess_listing(opcode, first, second),
    }
}

fn guess_listing(opcode: u64, first: u64, second: u64) -> Option<RunOp>
    ensures read { result ≡ spec.listing opcode first second }
    ensures wide { IfSome result spec.IsWide }
{
    let count = byte(first, 65_536);
    if 8 < count {
        return None;
    }
    let places = listed(count, second);
    match opcode {
        14 => Some(RunOp::Call(high(first), byte(first, 256), places)),
        20 => Some(RunOp::Tup(byte(first, 256), high(first), places)),
        21 => Some(RunOp::Untup(high(first), byte(first, 256), places)),
        _ => None,
    }
}

// The byte of the word that is worth so much.
fn byte(word: u64, worth: u64) -> u8
    requires { 0 < worth }
    ensures { result ≡ spec.byte_at worth word }
{
    (word / worth % 256) as u8
}

// Its bytes 4 to 7.
fn high(word: u64) -> u32
    ensures { result ≡ spec.high_of word }
{
    (word / 4_294_967_296) as u32
}

// So many bytes of the word, the lowest first.
#[tactic(auto, unfolding(crate::specs::Guessed::bytes_in))]
fn listed(count: u8, word: u64) -> ArrayVec<u8, 8>
    requires { count ≤ MOST_LISTED }
    ensures read { result.items ≡ spec.bytes_in count word }
    ensures few { length result.items ≡ count }
    ensures bytes { All IsPlace result.items }
{
    let mut made = ArrayVec::new();
    let mut left = count;
    let mut rest = word;
    'bytes: while 0 < left {
        made.push((rest % 256) as u8);
        rest /= 256;
        left -= 1;
    }
    made
}

fn comparison_of(number: u32) -> Cmp
    ensures { result ≡ spec.comparison_of number }
{
    match number {
        0 => Cmp::Lt,
        1 => Cmp::Le,
        2 => Cmp::Eq,
        _ => Cmp::Ne,
    }
}

// Whether the numbers of an instruction are in range.
fn is_in_range(op: &RunOp) -> bool
    requires { spec.IsWide op.now }
    ensures { IsTrue result ↔ IsRunOp op.now }
{
    match op {
        RunOp::Li(rd, _number) => is_register(*rd),
        RunOp::Lb(rd, _truth) => is_register(*rd),
        RunOp::Mv(_, _) | RunOp::Jmp(_) | RunOp::Ret(_) => true,
        RunOp::Add(rd, ra, rb) => are_registers(*rd, *ra, *rb),
        RunOp::Sub(rd, ra, rb) => are_registers(*rd, *ra, *rb),
        RunOp::Mul(rd, ra, rb) => are_registers(*rd, *ra, *rb),
        RunOp::Div(rd, ra, rb) => are_registers(*rd, *ra, *rb),
        RunOp::Mod(rd, ra, rb) => are_registers(*rd, *ra, *rb),
        RunOp::Set(_, rd, ra, rb) => are_registers(*rd, *ra, *rb),
        RunOp::Br(_, ra, rb, _) => is_register(*ra) && is_register(*rb),
        RunOp::Bt(ra, _) | RunOp::Bf(ra, _) => is_register(*ra),
        RunOp::Call(_, _, _) => true,
        RunOp::Len(rd, ra) => is_register(*rd) && is_register(*ra),
        RunOp::Ld(rd, ra, ri) => are_registers(*rd, *ra, *ri),
        RunOp::St(ra, ri, rv) => are_registers(*ra, *ri, *rv),
        RunOp::New(rd, cells, rn, rv) => *cells <= LAST_TYPE && are_registers(*rd, *rn, *rv),
        RunOp::Tup(_, number, _) => *number <= LAST_TYPE,
        RunOp::Untup(number, _, _) => *number <= LAST_TYPE,
        RunOp::Print(ra) => is_register(*ra),
    }
}

fn is_register(number: u8) -> bool
    ensures { IsTrue result ↔ (number < 16) }
{
    number < 16
}

fn are_registers(a: u8, b: u8, c: u8) -> bool
    ensures { IsTrue result ↔ ((a < 16) × (b < 16) × (c < 16)) }
{
    a < 16 && b < 16 && c < 16
}
