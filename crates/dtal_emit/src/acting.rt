//! The instruction of the text that acts as one of the code over places.

ghost use Rattle.std.specs.Prelude.{◌≡◌};
ghost use Rattle.dtal_emit.specs.Acting as spec;

use arrayvec::ArrayVec;
use dtal_code::Cmp;
use dtal_code::instruction::Op;
use three_address::Op22;

// The place at this position of a list.
fn nth(homes: &ArrayVec<u8, 8>, at: usize) -> u8
    ensures { result ≡ spec.nth homes.now.items at }
{
    match homes.as_slice().get(at) {
        Some(home) => *home,
        None => 0,
    }
}

fn comparison_of(number: &i64) -> Cmp
    ensures { result ≡ spec.comparison_of number.now }
{
    if *number == 0 {
        Cmp::Lt
    } else if *number == 1 {
        Cmp::Le
    } else if *number == 2 {
        Cmp::Eq
    } else {
        Cmp::Ne
    }
}

fn type_of(number: &i64) -> u32
    ensures { result ≡ spec.type_of number.now }
{
    match u32::try_from(*number) {
        Ok(id) => id,
        Err(_) => 0,
    }
}

/// Whether an instruction takes its places as they are, slots too.
pub(crate) fn takes_places(op: Op22) -> bool
    ensures { result ≡ spec.takes_places op }
{
    match op {
        Op22::Mv | Op22::Call | Op22::Ret | Op22::Tup | Op22::Untup => true,
        Op22::Li
        | Op22::Lb
        | Op22::Add
        | Op22::Sub
        | Op22::Mul
        | Op22::Div
        | Op22::Mod
        | Op22::Set
        | Op22::Br
        | Op22::Bt
        | Op22::Bf
        | Op22::Jmp
        | Op22::Len
        | Op22::Ld
        | Op22::St
        | Op22::New
        | Op22::Print => false,
    }
}

/// The instruction with the places that it writes, and those that it reads.
pub(crate) fn acting(
    op: Op22,
    number: &i64,
    target: u32,
    writes: ArrayVec<u8, 8>,
    reads: ArrayVec<u8, 8>,
) -> Op
    ensures { result ≡ spec.acting op number.now target writes.items reads.items }
{
    match op {
        Op22::Li => Op::Li(nth(&writes, 0), *number),
        Op22::Lb => Op::Lb(nth(&writes, 0), *number == 1),
        Op22::Mv => Op::Mv(nth(&writes, 0), nth(&reads, 0)),
        Op22::Add => Op::Add(nth(&writes, 0), nth(&reads, 0), nth(&reads, 1)),
        Op22::Sub => Op::Sub(nth(&writes, 0), nth(&reads, 0), nth(&reads, 1)),
        Op22::Mul => Op::Mul(nth(&writes, 0), nth(&reads, 0), nth(&reads, 1)),
        Op22::Div => Op::Div(nth(&writes, 0), nth(&reads, 0), nth(&reads, 1)),
        Op22::Mod => Op::Mod(nth(&writes, 0), nth(&reads, 0), nth(&reads, 1)),
        Op22::Set => Op::Set(
            comparison_of(number),
            nth(&writes, 0),
            nth(&reads, 0),
            nth(&reads, 1),
        ),
        Op22::Br => Op::Br(
            comparison_of(number),
            nth(&reads, 0),
            nth(&reads, 1),
            target,
        ),
        Op22::Bt => Op::Bt(nth(&reads, 0), target),
        Op22::Bf => Op::Bf(nth(&reads, 0), target),
        Op22::Jmp => Op::Jmp(target),
        Op22::Call => Op::Call(target, nth(&writes, 0), reads),
        Op22::Ret => Op::Ret(nth(&reads, 0)),
        Op22::Len => Op::Len(nth(&writes, 0), nth(&reads, 0)),
        Op22::Ld => Op::Ld(nth(&writes, 0), nth(&reads, 0), nth(&reads, 1)),
        Op22::St => Op::St(nth(&reads, 0), nth(&reads, 1), nth(&reads, 2)),
        Op22::New => Op::New(
            nth(&writes, 0),
            type_of(number),
            nth(&reads, 0),
            nth(&reads, 1),
        ),
        Op22::Tup => Op::Tup(nth(&writes, 0), type_of(number), reads),
        Op22::Untup => Op::Untup(type_of(number), nth(&reads, 0), writes),
        Op22::Print => Op::Print(nth(&reads, 0)),
    }
}
