//! What is known of numbers since they stand in memory.

ghost use Rattle.std.specs.Prelude.{All};
ghost use Rattle.carried_acceptance.specs.WrittenParts.{AreWritten, HasMultipliers, HasNumbers, HaveMultipliers, HaveNumbers};
ghost use Rattle.program_builder.specs.NumberedLines.{AreNumberable};

use proof_lines::Line;
use three_address::{LowFun, LowInstr, Lowered};
use xan_seq::Seq;

// Tells of an instruction that its numbers are of 64 and of 32 bits.
fn tell_instruction(instr: &LowInstr)
    ensures { HasNumbers instr.now }
{
    let _number = instr.number;
    let _target = instr.target;
}

// Tells so of code.
fn tell_code(code: &[LowInstr])
    ensures { All HasNumbers code.now }
{
    for instr in code {
        tell_instruction(instr);
    }
}

// Tells so of functions.
fn tell_functions(funs: &[LowFun])
    ensures { All HaveNumbers funs.now }
{
    for fun in funs {
        tell_code(fun.code.as_slice());
    }
}

// Tells of a line that its multipliers are of 64 bits.
fn tell_line(line: &Line)
    ensures { HasMultipliers line.now }
{
    match line {
        Line::Hyp(_) | Line::Goal => {}
        Line::Comb {
            left_by,
            right_by,
            ..
        } => {
            let _left = *left_by;
            let _right = *right_by;
        }
        Line::Cut { by, .. } => {
            let _by = *by;
        }
    }
}

// Tells so of lines.
fn tell_lines(lines: &[Line])
    ensures { HaveMultipliers lines.now }
{
    for line in lines {
        tell_line(line);
    }
}

// Tells so of all proofs.
fn tell_proofs(proofs: &[Seq<Line>])
    ensures { All HaveMultipliers proofs.now }
{
    for lines in proofs {
        tell_lines(lines.as_slice());
    }
}

/// The numbers of code and of proofs can be written, where no proof has more lines than a text can number. It computes nothing.
pub(crate) fn tell_written(low: &Lowered, proofs: &[Seq<Line>])
    requires { AreNumberable proofs.now }
    ensures { AreWritten low.now proofs.now }
{
    tell_functions(low.funs.as_slice());
    tell_proofs(proofs);
}
