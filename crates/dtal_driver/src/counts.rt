//! How many functions and instructions a program has.

ghost use Rattle.std.specs.Prelude.{◌≡◌, ◌<◌, ◌≤◌, ◌^◌};
ghost use Rattle.std.specs.List.{All};
ghost use Rattle.dtal_code.specs.declared.limits.TheConstants.{LAST_NUMBER};
ghost use Rattle.dtal_code.specs.Grammar.{InGrammar, IsFunction, size_of};
ghost use Rattle.dtal_driver.specs.VerifiedTexts.{accepted_answer, instructions_of};

use crate::answer::Answer;
use dtal_code::{Block, DtalProgram, Function};

/// What is said of a program that is accepted.
pub fn accepted_answer(program: &DtalProgram) -> Answer
    requires { InGrammar program.now }
    ensures { result ≡ accepted_answer program.now }
{
    let funs = program.funs.as_slice();
    Answer::Accepted {
        functions: funs.len() as u64,
        instructions: count_in_functions(funs),
    }
}

/// How many instructions the functions have.
#[tactic(auto, unfolding(crate::specs::VerifiedTexts::instructions_of))]
fn count_in_functions(funs: &[Function]) -> u64
    requires fit { All IsFunction funs.now }
    requires few { instructions_of funs.now < 2 ^ 64 }
    ensures { result ≡ instructions_of funs.now }
{
    let mut count = 0u64;
    'each: for fun in funs {
        count += count_in_blocks(fun.blocks.as_slice());
    }
    count
}

/// How many instructions the blocks have.
#[tactic(auto, unfolding(dtal_code::specs::Grammar::size_of))]
fn count_in_blocks(blocks: &[Block]) -> u64
    requires { size_of blocks.now ≤ LAST_NUMBER }
    ensures { result ≡ size_of blocks.now }
{
    let mut count = 0u64;
    'each: for block in blocks {
        count += block.code.as_slice().len() as u64;
    }
    count
}
