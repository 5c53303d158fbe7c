//! The text of whole programs.

ghost use Rattle.std.specs.Prelude.{◌≡◌, ◌++◌, OnOk, IfOk, All};
ghost use Rattle.dtal_code.specs.Grammar.{AreLinesIn, IsInstr, IsFunction, InGrammar, Spells};
ghost use Rattle.dtal_code.specs.Printed.{CodeFits};
ghost use Rattle.dtal_code.specs.Spelling as spec;

use crate::instruction::Instr;
use crate::instruction_text::{put_op, put_way};
use crate::lists::{Piece, put_joined};
use crate::pieces::{put, put_number, put_place};
use crate::program::{Block, DtalProgram, Function, LabelState};
use crate::type_text::{put_quantifier, put_signature, put_ty};
use proof_lines::{Line, write_lines};
use state_types::{Packed, Ty};
use std::alloc::Global;
use xan_lin::Memory;
use xan_seq::Seq;

/// The one text of a program that has a text, in time and memory by its length. `Memory` comes where memory ran out.
#[tactic(auto, using(crate::proofs::Appended::appended))]
pub fn print(alloc: Global, program: &DtalProgram) -> Result<Vec<u8>, Memory>
    requires { InGrammar program.now }
    ensures spelled { IfOk result (λ text. Spells text.items program.now) }
    ensures exact { IfOk result (λ text. text.items ≡ spec.program_text program.now) }
{
    let mut text = Vec::new(alloc);
    put(&mut text, b"dtal 1\n")?;
    put_types(&mut text, program.types.as_slice())?;
    put_functions(&mut text, program.funs.as_slice())?;
    Ok(text)
}

#[tactic(auto, using(crate::proofs::Appended::appended), unfolding(crate::specs::Spelling::each))]
fn put_types(out: &mut Vec<u8>, types: &[Packed]) -> Result<(), Memory>
    ensures { OnOk result (out.new.items ≡ out.old.items ++ spec.each spec.type_line types.now) }
{
    'types: for packed in types {
        packed.put_text(out)?;
    }
    Ok(())
}

#[tactic(auto, using(crate::proofs::Appended::appended), unfolding(crate::specs::Spelling::each))]
fn put_functions(out: &mut Vec<u8>, funs: &[Function]) -> Result<(), Memory>
    requires { All IsFunction funs.now }
    ensures { OnOk result (out.new.items ≡ out.old.items ++ spec.each spec.function_text funs.now) }
{
    'funs: for fun in funs {
        put_function(out, fun)?;
    }
    Ok(())
}

#[tactic(auto, using(crate::proofs::Appended::appended))]
fn put_function(out: &mut Vec<u8>, fun: &Function) -> Result<(), Memory>
    requires { IsFunction fun.now }
    ensures { OnOk result (out.new.items ≡ out.old.items ++ spec.function_text fun.now) }
{
    put(out, b"fun ")?;
    put(out, fun.name.bytes())?;
    put(out, b" ")?;
    put_signature(out, &fun.sig)?;
    put(out, b"\n")?;
    put_blocks(out, fun.blocks.as_slice())?;
    put(out, b"end\n")
}

// Blocks, each behind the line of its label.
#[tactic(auto, using(crate::proofs::Appended::appended), unfolding(crate::specs::Spelling::blocks_text))]
fn put_blocks(out: &mut Vec<u8>, blocks: &[Block]) -> Result<(), Memory>
    requires { All CodeFits blocks.now }
    ensures { OnOk result (out.new.items ≡ out.old.items ++ spec.blocks_text 0 blocks.now) }
{
    let mut label: usize = 0;
    'each: for block in blocks {
        put_head(out, label, &block.state)?;
        put_code(out, block.code.as_slice())?;
        label += 1;
    }
    Ok(())
}

fn put_head(out: &mut Vec<u8>, label: usize, state: &Option<LabelState>) -> Result<(), Memory>
    ensures { OnOk result (out.new.items ≡ out.old.items ++ spec.head_text label state.now) }
{
    match state {
        None => Ok(()),
        Some(state) => put_label(out, label, state),
    }
}

#[tactic(auto, using(crate::proofs::Appended::appended))]
fn put_label(out: &mut Vec<u8>, label: usize, state: &LabelState) -> Result<(), Memory>
    ensures { OnOk result (out.new.items ≡ out.old.items ++ spec.label_line label state.now) }
{
    put(out, b"label ")?;
    put_number(out, label as u64)?;
    put(out, b" ")?;
    put_quantifier(out, state.vars, state.rows.as_slice())?;
    put(out, b" [")?;
    put_joined(out, b" ", state.places.entries())?;
    put(out, b"]\n")
}

impl Piece for (u16, Ty) {
    ghost text = { spec.typed_place };

    #[tactic(auto, using(crate::proofs::Appended::appended))]
    fn put_text(&self, out: &mut Vec<u8>) -> Result<(), Memory> {
        put_place(out, self.0)?;
        put(out, b":")?;
        put_ty(out, &self.1)
    }
}

#[tactic(auto, using(crate::proofs::Appended::appended), unfolding(crate::specs::Spelling::each))]
fn put_code(out: &mut Vec<u8>, code: &[Instr]) -> Result<(), Memory>
    requires { All IsInstr code.now }
    ensures { OnOk result (out.new.items ≡ out.old.items ++ spec.code_text code.now) }
{
    'code: for instr in code {
        put_instr(out, instr)?;
    }
    Ok(())
}

// An instruction, and the lines that prove its rows.
#[tactic(auto, using(crate::proofs::Appended::appended))]
fn put_instr(out: &mut Vec<u8>, instr: &Instr) -> Result<(), Memory>
    requires { IsInstr instr.now }
    ensures { OnOk result (out.new.items ≡ out.old.items ++ spec.instr_text instr.now) }
{
    put_op(out, &instr.op)?;
    put_way(out, &instr.op, instr.edge.as_slice())?;
    put(out, b"\n")?;
    put_proofs(out, instr.by.as_slice())
}

#[tactic(auto, using(crate::proofs::Appended::appended), unfolding(crate::specs::Spelling::each))]
fn put_proofs(out: &mut Vec<u8>, by: &[Seq<Line>]) -> Result<(), Memory>
    requires { All AreLinesIn by.now }
    ensures { OnOk result (out.new.items ≡ out.old.items ++ spec.each spec.by_line by.now) }
{
    'by: for lines in by {
        put_proof(out, lines.as_slice())?;
    }
    Ok(())
}

fn put_proof(out: &mut Vec<u8>, lines: &[Line]) -> Result<(), Memory>
    requires { AreLinesIn lines.now }
    ensures { OnOk result (out.new.items ≡ out.old.items ++ spec.by_line lines.now) }
{
    write_lines(lines, out)?;
    put(out, b"\n")
}
