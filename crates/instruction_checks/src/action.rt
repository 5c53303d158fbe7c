//! An instruction as an operation, with the places that it writes and those that it reads.

ghost use Rattle.std.specs.Prelude.{◌≡◌, ◌∷◌, [], length};
ghost use Rattle.dtal_code.specs.Instructions as spec;
ghost use Rattle.instruction_checks.specs.Views.{action_of};
ghost use Rattle.operation_rules.specs.declared.operation.Operation.TheVariants.{Literal, Untuple};

use arrayvec::ArrayVec;
use dtal_code::Cmp;
use dtal_code::instruction::Op;
use operation_rules::Operation;

/// Some places.
pub(crate) type Listed = ArrayVec<u8, 8>;

/// What an instruction does.
#[derive(Drop)]
pub(crate) struct Action {
    /// Its operation.
    pub(crate) operation: Operation,
    /// The places that it writes.
    pub(crate) writes: Listed,
    /// The places that it reads.
    pub(crate) reads: Listed,
    /// The label to which it goes, or 0.
    pub(crate) target: u32,
}

// No place.
fn none() -> Listed
    ensures { result.items ≡ [] }
{
    ArrayVec::new()
}

// One place.
fn one(a: u8) -> Listed
    ensures { result.items ≡ a ∷ [] }
{
    let mut listed = ArrayVec::new();
    listed.push(a);
    listed
}

// Two places.
fn two(a: u8, b: u8) -> Listed
    ensures { result.items ≡ a ∷ b ∷ [] }
{
    let mut listed = ArrayVec::new();
    listed.push(a);
    listed.push(b);
    listed
}

// Three places.
fn three(a: u8, b: u8, c: u8) -> Listed
    ensures { result.items ≡ a ∷ b ∷ c ∷ [] }
{
    let mut listed = ArrayVec::new();
    listed.push(a);
    listed.push(b);
    listed.push(c);
    listed
}

// The same places.
fn copied(places: &Listed) -> Listed
    ensures { result.items ≡ places.now.items }
{
    let mut listed = ArrayVec::new();
    let Ok(()) = listed.try_extend_from_slice(places.as_slice()) else {
        unreachable!()
    };
    listed
}

// The number of a comparison.
fn comparison(cmp: Cmp) -> u32
    ensures { result ≡ spec.comparison cmp }
{
    match cmp {
        Cmp::Lt => 0,
        Cmp::Le => 1,
        Cmp::Eq => 2,
        Cmp::Ne => 3,
    }
}

// An operation that does not go elsewhere.
fn does(operation: Operation, writes: Listed, reads: Listed) -> Action
    ensures { action_of result ≡ spec.does operation writes.items reads.items }
{
    Action {
        operation,
        writes,
        reads,
        target: 0,
    }
}

// One that does.
fn leads(operation: Operation, reads: Listed, target: u32) -> Action
    ensures { action_of result ≡ spec.leads operation reads.items target }
{
    Action {
        operation,
        writes: none(),
        reads,
        target,
    }
}

// A number into a register.
fn literal(rd: u8, number: &i64) -> Action
    ensures { action_of result ≡ spec.does (Literal number.now) (rd ∷ []) [] }
{
    does(Operation::Literal(*number), one(rd), none())
}

// The parts of a tuple into places.
fn parts_of(number: u32, from: u8, parts: &Listed) -> Action
    ensures { action_of result ≡ spec.does (Untuple number (length parts.now.items)) parts.now.items (from ∷ []) }
{
    let count = parts.len() as u32;
    does(Operation::Untuple(number, count), copied(parts), one(from))
}

/// What the instruction does.
pub(crate) fn action_in(op: &Op) -> Action
    ensures { action_of result ≡ spec.instruction_in op.now }
{
    match op {
        Op::Li(rd, number) => literal(*rd, number),
        Op::Lb(rd, truth) => does(Operation::Truth(*truth), one(*rd), none()),
        Op::Mv(p, q) => does(Operation::Move, one(*p), one(*q)),
        Op::Add(rd, ra, rb) => does(Operation::Add, one(*rd), two(*ra, *rb)),
        Op::Sub(rd, ra, rb) => does(Operation::Sub, one(*rd), two(*ra, *rb)),
        Op::Mul(rd, ra, rb) => does(Operation::Mul, one(*rd), two(*ra, *rb)),
        Op::Div(rd, ra, rb) => does(Operation::Div, one(*rd), two(*ra, *rb)),
        Op::Mod(rd, ra, rb) => does(Operation::Mod, one(*rd), two(*ra, *rb)),
        Op::Set(c, rd, ra, rb) => does(Operation::Compare(comparison(*c)), one(*rd), two(*ra, *rb)),
        Op::Br(c, ra, rb, to) => leads(Operation::Branch(comparison(*c)), two(*ra, *rb), *to),
        Op::Bt(ra, to) => leads(Operation::BranchTruth(true), one(*ra), *to),
        Op::Bf(ra, to) => leads(Operation::BranchTruth(false), one(*ra), *to),
        Op::Jmp(to) => leads(Operation::Jump, none(), *to),
        Op::Call(fun, p, args) => does(Operation::Call(*fun), one(*p), copied(args)),
        Op::Ret(p) => does(Operation::Return, none(), one(*p)),
        Op::Len(rd, ra) => does(Operation::Length, one(*rd), one(*ra)),
        Op::Ld(rd, ra, ri) => does(Operation::Load, one(*rd), two(*ra, *ri)),
        Op::St(ra, ri, rv) => does(Operation::Store, none(), three(*ra, *ri, *rv)),
        Op::New(rd, cells, rn, rv) => does(Operation::New(*cells), one(*rd), two(*rn, *rv)),
        Op::Tup(p, number, parts) => does(Operation::Tuple(*number), one(*p), copied(parts)),
        Op::Untup(number, q, parts) => parts_of(*number, *q, parts),
        Op::Print(ra) => does(Operation::Print, none(), one(*ra)),
    }
}
