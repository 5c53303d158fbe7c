//! The sum of an array as a program of the text, built piece by piece: it is printed, verified and assembled.

ghost use Rattle.std.specs.Prelude.{◌≡◌, ◌++◌, IfSome, [], ◌∷◌, pos};
ghost use Rattle.dtal_code.specs.declared.instruction.Op.TheVariants as ops;
ghost use Rattle.dtal_code.proofs.ArraySums as by_hand;
ghost use Rattle.dtal_code.specs.Acceptance.{Accepted};

use dtal_assembler::assemble;
use dtal_code::instruction::Op;
use dtal_code::{Block, Cmp, DtalProgram, Function, Instr, LabelState, Object, print};
use dtal_verifier::{Verified, verify};
use proof_lines::Line;
use state_types::{Places, Signature, Ty};
use std::alloc::Global;
use std::test::Fail;
use xan_io::Name;
use xan_lin::{Form, Term};
use xan_seq::Seq;

// The list with one more at its end.
fn with<T: Drop>(items: Vec<T>, item: T) -> Option<Vec<T>>
    ensures { IfSome result (λ made. made.items ≡ items.items ++ item ∷ []) }
{
    let mut made = items;
    let Ok(()) = made.push(item) else {
        return None;
    };
    Some(made)
}

// An instruction alone.
fn plain(alloc: Global, op: Op) -> Instr
    ensures { result ≡ by_hand.plain op }
{
    goes(op, Vec::new(alloc), Vec::new(alloc))
}

fn goes(op: Op, edge: Vec<(u32, Form)>, by: Vec<Seq<Line>>) -> Instr
    ensures { result ≡ by_hand.goes op edge.items by.items }
{
    Instr {
        op,
        edge: Seq::from_vec(edge),
        by: Seq::from_vec(by),
    }
}

#[tactic(auto, unfolding(xan_lin::specs::Linear::sized, xan_lin::specs::Terms::sum_terms))]
fn zero() -> Option<Form>
    ensures { IfSome result (λ form. form ≡ by_hand.number (pos 0)) }
{
    match Form::from_terms(&[], 0) {
        Ok(form) => Some(form),
        Err(_) => None,
    }
}

#[tactic(auto, unfolding(xan_lin::specs::Linear::sized, xan_lin::specs::Terms::sum_terms, xan_lin::specs::Terms::plus_term))]
fn ahead() -> Option<Form>
    ensures { IfSome result (λ form. form ≡ by_hand.ahead (pos 0)) }
{
    match Form::variable(0).sub(&Form::variable(1)) {
        Ok(form) => Some(form),
        Err(_) => None,
    }
}

#[tactic(auto, unfolding(xan_lin::specs::Linear::sized, xan_lin::specs::Terms::sum_terms, xan_lin::specs::Terms::plus_term))]
fn reached() -> Option<Form>
    ensures { IfSome result (λ form. form ≡ by_hand.reached) }
{
    match Form::variable(1).sub(&Form::variable(0)) {
        Ok(form) => Some(form),
        Err(_) => None,
    }
}

#[tactic(auto, unfolding(xan_lin::specs::Linear::sized, xan_lin::specs::Terms::sum_terms, xan_lin::specs::Terms::plus_term))]
fn sum() -> Option<Form>
    ensures { IfSome result (λ form. form ≡ by_hand.sum) }
{
    match Form::variable(2).add(&Form::variable(3)) {
        Ok(form) => Some(form),
        Err(_) => None,
    }
}

// The index and 1.
#[tactic(auto, unfolding(xan_lin::specs::Linear::sized, xan_lin::specs::Terms::sum_terms, xan_lin::specs::Terms::plus_term))]
fn next_index() -> Option<Form>
    ensures { IfSome result (λ form. form ≡ by_hand.variable_and 1 (pos 1)) }
{
    match Form::from_terms(&[Term { var: 1, coef: 1 }], 1) {
        Ok(form) => Some(form),
        Err(_) => None,
    }
}

// ---- blocks

fn first_block(alloc: Global) -> Option<Block>
    ensures { IfSome result (λ block. block ≡ by_hand.first_block) }
{
    let code = with(Vec::new(alloc), plain(alloc, Op::Li(1, 0)))?;
    let code = with(code, plain(alloc, Op::Li(2, 0)))?;
    let edge = with(Vec::new(alloc), (1, zero()?))?;
    let edge = with(edge, (2, zero()?))?;
    let code = with(code, goes(Op::Jmp(1), edge, Vec::new(alloc)))?;
    Some(Block {
        state: None,
        code: Seq::from_vec(code),
    })
}

fn loop_rows(alloc: Global) -> Option<Vec<Form>>
    ensures { IfSome result (λ rows. rows.items ≡ by_hand.loop_rows) }
{
    let rows = with(Vec::new(alloc), Form::variable(0))?;
    let rows = with(rows, Form::variable(1))?;
    with(rows, ahead()?)
}

fn end_rows(alloc: Global) -> Option<Vec<Form>>
    ensures { IfSome result (λ rows. rows.items ≡ by_hand.end_rows) }
{
    with(loop_rows(alloc)?, reached()?)
}

// The places of the loop's head.
fn loop_places(alloc: Global) -> Option<Places>
    ensures { IfSome result (λ places. places ≡ by_hand.array_place ∷ by_hand.index_place ∷ by_hand.sum_place ∷ []) }
{
    let entries = with(Vec::new(alloc), (0, Ty::Array(0, Form::variable(0))))?;
    let entries = with(entries, (1, Ty::Int(Form::variable(1))))?;
    let entries = with(entries, (2, Ty::Int(Form::variable(2))))?;
    Some(Places::from_vec(entries))
}

fn end_places(alloc: Global) -> Option<Places>
    ensures { IfSome result (λ places. places ≡ by_hand.sum_place ∷ []) }
{
    let entries = with(Vec::new(alloc), (2, Ty::Int(Form::variable(2))))?;
    Some(Places::from_vec(entries))
}

// The lines that prove the next index to be at least 0.
fn proof(alloc: Global) -> Option<Vec<Seq<Line>>>
    ensures { IfSome result (λ by. by.items ≡ by_hand.proof) }
{
    let lines = with(Vec::new(alloc), Line::Hyp(Form::variable(1)))?;
    let lines = with(lines, Line::Goal)?;
    let line = Line::Comb {
        left_by: 1,
        left: 0,
        right_by: 1,
        right: 1,
    };
    let lines = with(lines, line)?;
    with(Vec::new(alloc), Seq::from_vec(lines))
}

// The jump back to the loop's head.
fn jump_back(alloc: Global) -> Option<Instr>
    ensures { IfSome result (λ instr. instr ≡ by_hand.goes (ops.Jmp 1) ((1, by_hand.variable_and 1 (pos 1)) ∷ (2, by_hand.sum) ∷ []) by_hand.proof) }
{
    let edge = with(Vec::new(alloc), (1, next_index()?))?;
    let edge = with(edge, (2, sum()?))?;
    Some(goes(Op::Jmp(1), edge, proof(alloc)?))
}

fn loop_code(alloc: Global) -> Option<Vec<Instr>>
    ensures { IfSome result (λ code. code.items ≡ (by_hand.loop_block (by_hand.variable_and 1 (pos 1)) by_hand.proof).code) }
{
    let code = with(Vec::new(alloc), plain(alloc, Op::Len(3, 0)))?;
    let code = with(code, plain(alloc, Op::Br(Cmp::Le, 3, 1, 2)))?;
    let code = with(code, plain(alloc, Op::Ld(3, 0, 1)))?;
    let code = with(code, plain(alloc, Op::Add(2, 2, 3)))?;
    let code = with(code, plain(alloc, Op::Li(3, 1)))?;
    let code = with(code, plain(alloc, Op::Add(1, 1, 3)))?;
    with(code, jump_back(alloc)?)
}

fn loop_block(alloc: Global) -> Option<Block>
    ensures { IfSome result (λ block. block ≡ by_hand.loop_block (by_hand.variable_and 1 (pos 1)) by_hand.proof) }
{
    Some(Block {
        state: Some(LabelState {
            vars: 3,
            rows: Seq::from_vec(loop_rows(alloc)?),
            places: loop_places(alloc)?,
        }),
        code: Seq::from_vec(loop_code(alloc)?),
    })
}

fn end_block(alloc: Global) -> Option<Block>
    ensures { IfSome result (λ block. block ≡ by_hand.end_block (ops.Ret 2)) }
{
    let code = with(Vec::new(alloc), plain(alloc, Op::Ret(2)))?;
    Some(Block {
        state: Some(LabelState {
            vars: 4,
            rows: Seq::from_vec(end_rows(alloc)?),
            places: end_places(alloc)?,
        }),
        code: Seq::from_vec(code),
    })
}

// ---- the program

fn signature(alloc: Global) -> Option<Signature>
    ensures { IfSome result (λ sig. sig ≡ by_hand.sum_sig) }
{
    let rows = with(Vec::new(alloc), Form::variable(0))?;
    let params = with(Vec::new(alloc), Ty::Array(0, Form::variable(0)))?;
    Some(Signature {
        vars: 1,
        rows: Seq::from_vec(rows),
        params: Seq::from_vec(params),
        result_vars: 1,
        result_rows: Seq::from_vec(Vec::new(alloc)),
        result: Ty::Int(Form::variable(1)),
    })
}

fn array_sum(alloc: Global) -> Option<DtalProgram>
    ensures { IfSome result (λ program. program ≡ by_hand.array_sum) }
{
    let blocks = with(Vec::new(alloc), first_block(alloc)?)?;
    let blocks = with(blocks, loop_block(alloc)?)?;
    let blocks = with(blocks, end_block(alloc)?)?;
    let Ok(name) = Name::from_bytes(alloc, b"main") else {
        return None;
    };
    let main = Function {
        name,
        sig: signature(alloc)?,
        blocks: Seq::from_vec(blocks),
    };
    let funs = with(Vec::new(alloc), main)?;
    Some(DtalProgram {
        types: Seq::from_vec(Vec::new(alloc)),
        funs: Seq::from_vec(funs),
    })
}

fn printed(alloc: Global, program: &DtalProgram) -> Option<Vec<u8>>
    requires { program.now ≡ by_hand.array_sum }
{
    print(alloc, program).ok()
}

const TEXT: &[u8] = b"dtal 1
fun main {1|+1v0+0} (arr(0,+1v0+0)) {1|} int(+1v1+0)
li r1 0
li r2 0
jmp 1 {v1=+0,v2=+0}
label 1 {3|+1v0+0;+1v1+0;+1v0-1v1+0} [r0:arr(0,+1v0+0) r1:int(+1v1+0) r2:int(+1v2+0)]
len r3 r0
br le r3 r1 2 {}
ld r3 r0 r1
add r2 r2 r3
li r3 1
add r1 r1 r3
jmp 1 {v1=+1v1+1,v2=+1v2+1v3+0}
by h +1v1+0;g;c 1 0 1 1
label 2 {4|+1v0+0;+1v1+0;+1v0-1v1+0;-1v0+1v1+0} [r2:int(+1v2+0)]
ret r2
end
";

#[test]
fn array_sum_is_printed(rt: HostRuntime) -> Result<(), Fail> {
    let program = array_sum(rt.alloc()).ok_or("memory")?;
    let text = printed(rt.alloc(), &program).ok_or("memory")?;
    assert!(rt; text.as_slice() == TEXT);
    Ok(())
}

fn verified(alloc: Global, program: DtalProgram) -> Option<Verified>
    requires { program ≡ by_hand.array_sum }
    ensures { IfSome result (λ found. Accepted found.program) }
{
    verify(alloc, program).ok()
}

fn assembled(alloc: Global, verified: &Verified) -> Option<Object>
    requires { Accepted verified.now.program }
{
    assemble(alloc, verified.program()).ok()
}

// Two words for each instruction: its operation and places by bytes, the last byte first, and then its number or the instruction to which it
// leads.
const WORDS: &[u64] = &[
    0x01_01,
    0,
    0x02_01,
    0,
    0x0d,
    3,
    0x00_03_10,
    0,
    0x01_03_01_0a,
    10,
    0x01_00_03_11,
    0,
    0x03_02_02_04,
    0,
    0x03_01,
    1,
    0x03_01_01_04,
    0,
    0x0d,
    3,
    0x02_0f,
    0,
];

#[test]
fn array_sum_is_accepted_and_assembled(rt: HostRuntime) -> Result<(), Fail> {
    let program = array_sum(rt.alloc()).ok_or("memory")?;
    let program = verified(rt.alloc(), program).ok_or("refused")?;
    let object = assembled(rt.alloc(), &program).ok_or("memory")?;
    assert!(rt; object.words.as_slice() == WORDS);
    assert!(rt; object.starts.as_slice() == [0].as_slice());
    assert!(rt; object.main == 0);
    Ok(())
}
