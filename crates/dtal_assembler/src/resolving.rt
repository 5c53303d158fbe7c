//! Instructions in which labels are resolved.

ghost use Rattle.std.specs.Prelude.{◌≡◌};
ghost use Rattle.dtal_code.specs.Grammar.{IsOpIn};
ghost use Rattle.dtal_code.specs.Instructions.{resolved};
ghost use Rattle.dtal_code.specs.ObjectWords.{IsRunOp};
ghost use Rattle.dtal_assembler.specs.Labels.{table_target};

use crate::labels::target;
use arrayvec::ArrayVec;
use dtal_code::RunOp;
use dtal_code::instruction::Op;

/// The instruction in which labels are resolved by the table.
pub(crate) fn resolve(op: &Op, past: u64, labels: &[u64]) -> RunOp
    requires { IsOpIn op.now }
    ensures is { result ≡ resolved (table_target past labels.now) op.now }
    ensures fits { IsRunOp result }
{
    match op {
        Op::Li(rd, number) => RunOp::Li(*rd, *number),
        Op::Lb(rd, truth) => RunOp::Lb(*rd, *truth),
        Op::Mv(p, q) => RunOp::Mv(*p, *q),
        Op::Add(rd, ra, rb) => RunOp::Add(*rd, *ra, *rb),
        Op::Sub(rd, ra, rb) => RunOp::Sub(*rd, *ra, *rb),
        Op::Mul(rd, ra, rb) => RunOp::Mul(*rd, *ra, *rb),
        Op::Div(rd, ra, rb) => RunOp::Div(*rd, *ra, *rb),
        Op::Mod(rd, ra, rb) => RunOp::Mod(*rd, *ra, *rb),
        Op::Set(c, rd, ra, rb) => RunOp::Set(*c, *rd, *ra, *rb),
        Op::Br(c, ra, rb, label) => RunOp::Br(*c, *ra, *rb, target(past, labels, *label)),
        Op::Bt(ra, label) => RunOp::Bt(*ra, target(past, labels, *label)),
        Op::Bf(ra, label) => RunOp::Bf(*ra, target(past, labels, *label)),
        Op::Jmp(label) => RunOp::Jmp(target(past, labels, *label)),
        Op::Call(fun, p, args) => RunOp::Call(*fun, *p, copy(args)),
        Op::Ret(p) => RunOp::Ret(*p),
        Op::Len(rd, ra) => RunOp::Len(*rd, *ra),
        Op::Ld(rd, ra, ri) => RunOp::Ld(*rd, *ra, *ri),
        Op::St(ra, ri, rv) => RunOp::St(*ra, *ri, *rv),
        Op::New(rd, cells, rn, rv) => RunOp::New(*rd, *cells, *rn, *rv),
        Op::Tup(p, number, parts) => RunOp::Tup(*p, *number, copy(parts)),
        Op::Untup(number, q, parts) => RunOp::Untup(*number, *q, copy(parts)),
        Op::Print(ra) => RunOp::Print(*ra),
    }
}

// The same places.
fn copy(places: &ArrayVec<u8, 8>) -> ArrayVec<u8, 8>
    ensures { result.items ≡ places.now.items }
{
    let mut copied = ArrayVec::new();
    let Ok(()) = copied.try_extend_from_slice(places.as_slice()) else {
        unreachable!()
    };
    copied
}
