//! Instructions as two words.

ghost use Rattle.std.specs.Prelude.{◌≡◌, ◌*◌, ◌^◌, ◌<◌, ◌≤◌, ℕ, [], ◌∷◌, length};
ghost use Rattle.std.specs.List.{All};
ghost use Rattle.dtal_code.specs.declared.instruction.Cmp.{Cmp};
ghost use Rattle.dtal_code.specs.declared.object.RunOp.{RunOp};
ghost use Rattle.dtal_code.specs.Instructions.{comparison};
ghost use Rattle.dtal_code.specs.ObjectWords.{bits_of, word_of, words_of, IsRunOp};
ghost use Rattle.dtal_code.specs.Places.{IsPlace};
ghost use Rattle.dtal_code.specs.declared.limits.TheConstants.{MOST_LISTED};

use crate::instruction::Cmp;
use crate::limits::MOST_LISTED;
use crate::object::RunOp;

/// The two words that an instruction whose numbers are in range is coded in. It takes no memory.
#[tactic(auto, unfolding(crate::specs::ObjectWords::word_of))]
pub fn encode(op: &RunOp) -> (u64, u64)
    requires { IsRunOp op.now }
    ensures { result ≡ words_of op.now }
{
    match op {
        RunOp::Li(rd, number) => (word(1, *rd, 0, 0, 0), bits(number)),
        RunOp::Lb(rd, truth) => (word(2, *rd, u8::from(*truth), 0, 0), 0),
        RunOp::Mv(p, q) => (word(3, *p, *q, 0, 0), 0),
        RunOp::Add(rd, ra, rb) => (word(4, *rd, *ra, *rb, 0), 0),
        RunOp::Sub(rd, ra, rb) => (word(5, *rd, *ra, *rb, 0), 0),
        RunOp::Mul(rd, ra, rb) => (word(6, *rd, *ra, *rb, 0), 0),
        RunOp::Div(rd, ra, rb) => (word(7, *rd, *ra, *rb, 0), 0),
        RunOp::Mod(rd, ra, rb) => (word(8, *rd, *ra, *rb, 0), 0),
        RunOp::Set(c, rd, ra, rb) => (word(9, *rd, *ra, *rb, u32::from(number_of(*c))), 0),
        RunOp::Br(c, ra, rb, to) => (word(10, number_of(*c), *ra, *rb, 0), *to),
        RunOp::Bt(ra, to) => (word(11, *ra, 0, 0, 0), *to),
        RunOp::Bf(ra, to) => (word(12, *ra, 0, 0, 0), *to),
        RunOp::Jmp(to) => (word(13, 0, 0, 0, 0), *to),
        RunOp::Call(fun, p, args) => encode_listed(14, *p, *fun, args.as_slice()),
        RunOp::Ret(p) => (word(15, *p, 0, 0, 0), 0),
        RunOp::Len(rd, ra) => (word(16, *rd, *ra, 0, 0), 0),
        RunOp::Ld(rd, ra, ri) => (word(17, *rd, *ra, *ri, 0), 0),
        RunOp::St(ra, ri, rv) => (word(18, *ra, *ri, *rv, 0), 0),
        RunOp::New(rd, cells, rn, rv) => (word(19, *rd, *rn, *rv, *cells), 0),
        RunOp::Tup(p, number, parts) => encode_listed(20, *p, *number, parts.as_slice()),
        RunOp::Untup(number, q, parts) => encode_listed(21, *q, *number, parts.as_slice()),
        RunOp::Print(ra) => (word(22, *ra, 0, 0, 0), 0),
    }
}

#[tactic(auto, using(crate::proofs::Codings::number_bits))]
fn bits(number: &i64) -> u64
    ensures { result ≡ bits_of number.now }
{
    number.cast_unsigned()
}

// The word of four bytes and a number of four bytes, the lowest first.
#[tactic(auto, unfolding(crate::specs::ObjectWords::word_of))]
fn word(opcode: u8, a: u8, b: u8, c: u8, high: u32) -> u64
    ensures { result ≡ word_of (opcode ∷ a ∷ b ∷ c ∷ high ∷ []) }
{
    u64::from(opcode)
        + 256 * (u64::from(a) + 256 * (u64::from(b) + 256 * (u64::from(c) + 256 * u64::from(high))))
}

fn encode_listed(opcode: u8, p: u8, number: u32, places: &[u8]) -> (u64, u64)
    requires few { length places.now ≤ MOST_LISTED }
    requires are { All IsPlace places.now }
    ensures { result ≡ (word_of (opcode ∷ p ∷ length places.now ∷ 0 ∷ number ∷ []), word_of places.now) }
{
    (
        word(opcode, p, places.len() as u8, 0, number),
        word_of_places(places),
    )
}

// The word of bytes, the first lowest.
#[tactic(auto, unfolding(crate::specs::ObjectWords::word_of))]
fn word_of_places(places: &[u8]) -> u64
    requires few { length places.now ≤ MOST_LISTED }
    requires are { All IsPlace places.now }
    ensures words { result ≡ word_of places.now }
    ensures small { (room : ℕ) → length places.now ≤ room → result < 256 ^ room }
{
    match places {
        [] => 0,
        [first, rest @ ..] => u64::from(*first) + 256 * word_of_places(rest),
    }
}

fn number_of(c: Cmp) -> u8
    ensures { result ≡ comparison c }
{
    match c {
        Cmp::Lt => 0,
        Cmp::Le => 1,
        Cmp::Eq => 2,
        Cmp::Ne => 3,
    }
}
