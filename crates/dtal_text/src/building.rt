//! The blocks of a function, which its lines make one after the other.

ghost use Rattle.std.specs.Prelude.{◌≡◌, ◌++◌, [], OnOk, IfOk};
ghost use Rattle.dtal_text.specs.Building.{IsNew, ended, joined, nothing};
ghost use Rattle.dtal_text.specs.ProgramReading.{Gathered, with_line};
ghost use Rattle.dtal_text.specs.declared.line.BodyLine.TheVariants as line_is;

use crate::line::BodyLine;
use crate::operands::Way;
use dtal_code::{Block, Instr, LabelState};
use proof_lines::Line;
use std::alloc::{AllocError, Global};
use std::mem;
use xan_seq::Seq;

/// What lines have made.
#[derive(Drop)]
pub(crate) struct Building {
    /// The blocks that are whole.
    pub blocks: Vec<Block>,
    /// What is known at the label of the block that is made.
    pub state: Option<LabelState>,
    /// Its instructions, but for the last one.
    pub code: Vec<Instr>,
    /// The last one, behind which lines of proofs may still come.
    pub last: Option<Way>,
    /// Those that have come.
    pub by: Vec<Seq<Line>>,
}

// Puts the last instruction behind the others, with its lines of proofs.
fn end_instr(code: &mut Vec<Instr>, last: Option<Way>, by: Vec<Seq<Line>>) -> Result<(), AllocError>
    ensures { OnOk result (code.new.items ≡ code.old.items ++ ended last by.items) }
{
    if let Some((op, edge)) = last {
        let by = Seq::from_vec(by);
        code.push(Instr { op, edge, by })?;
    }
    Ok(())
}

impl Building {
    /// Where no line has come.
    pub(crate) fn new(alloc: Global) -> Building
        ensures { IsNew result }
    {
        Building {
            blocks: Vec::new(alloc),
            state: None,
            code: Vec::new(alloc),
            last: None,
            by: Vec::new(alloc),
        }
    }

    // Puts the last instruction behind the others, and another one may come.
    fn next_instr(&mut self, alloc: Global, next: Option<Way>) -> Result<(), AllocError>
        ensures code { OnOk result (self.new.code.items ≡ self.old.code.items ++ ended self.old.last self.old.by.items) }
        ensures last { self.new.last ≡ next }
        ensures by { self.new.by.items ≡ [] }
        ensures blocks { self.new.blocks.items ≡ self.old.blocks.items }
        ensures state { self.new.state ≡ self.old.state }
    {
        let last = mem::replace(&mut self.last, next);
        let by = mem::replace(&mut self.by, Vec::new(alloc));
        end_instr(&mut self.code, last, by)
    }

    // Puts the block behind the others, and begins one with this state at its label.
    fn next_block(&mut self, alloc: Global, state: LabelState) -> Result<(), AllocError>
        ensures { OnOk result ((g : Gathered) → joined self.new g ≡ joined self.old (with_line (line_is.Label state) g)) }
    {
        self.next_instr(alloc, None)?;
        let code = mem::replace(&mut self.code, Vec::new(alloc));
        let state = mem::replace(&mut self.state, Some(state));
        let code = Seq::from_vec(code);
        self.blocks.push(Block { state, code })?;
        Ok(())
    }

    /// What the line makes of it.
    pub(crate) fn add(&mut self, alloc: Global, line: BodyLine) -> Result<(), AllocError>
        ensures { OnOk result ((g : Gathered) → joined self.new g ≡ joined self.old (with_line line g)) }
    {
        match line {
            BodyLine::Instr(op, edge) => self.next_instr(alloc, Some((op, edge))),
            BodyLine::By(lines) => {
                self.by.push(lines)?;
                Ok(())
            }
            BodyLine::Label(state) => self.next_block(alloc, state),
        }
    }

    /// All blocks.
    pub(crate) fn finish(self) -> Result<Seq<Block>, AllocError>
        ensures { IfOk result (λ blocks. blocks ≡ joined self nothing) }
    {
        let Building {
            blocks,
            state,
            code,
            last,
            by,
        } = self;
        let mut code = code;
        end_instr(&mut code, last, by)?;
        let mut blocks = blocks;
        let code = Seq::from_vec(code);
        blocks.push(Block { state, code })?;
        Ok(Seq::from_vec(blocks))
    }
}
