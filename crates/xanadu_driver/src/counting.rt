//! How many functions, goals and instructions there are of a source that is built.

ghost use Rattle.std.specs.Prelude.{◌≡◌, ◌<◌, ◌≤◌, ◌^◌};
ghost use Rattle.std.specs.List.{All};
ghost use Rattle.dtal_code.specs.declared.limits.TheConstants.{LAST_NUMBER};
ghost use Rattle.dtal_code.specs.Grammar.{IsFunction, size_of};
ghost use Rattle.program_builder.specs.Counts.{functions_instructions};
ghost use Rattle.program_builder.specs.ProgramOf.{IsProgramOf};
ghost use Rattle.xanadu_tree.specs.PlainOf.{plain_core};
ghost use Rattle.xanadu_driver.specs.Source.{counts_of};

use command_reports::Counts;
use dtal_code::{Block, DtalProgram, Function};
use typed_core::Proved;

/// How many functions and goals a source has, and how many instructions the program that it became.
pub fn count(proved: &Proved, program: &DtalProgram) -> Counts
    requires { IsProgramOf (plain_core proved.now.base.core) proved.now.base.made program.now }
    ensures { result ≡ counts_of (plain_core proved.now.base.core) proved.now.base.made }
{
    let funs = program.funs.as_slice();
    Counts {
        functions: funs.len() as u64,
        goals: proved.base().goals().len() as u64,
        instructions: count_in_functions(funs),
    }
}

/// How many instructions the functions have.
#[tactic(auto, unfolding(program_builder::specs::Counts::functions_instructions))]
fn count_in_functions(funs: &[Function]) -> u64
    requires fit { All IsFunction funs.now }
    requires few { functions_instructions funs.now < 2 ^ 64 }
    ensures { result ≡ functions_instructions funs.now }
{
    let mut count = 0u64;
    'each: for fun in funs {
        count += count_in_blocks(fun.blocks.as_slice());
    }
    count
}

/// How many instructions the blocks have.
#[tactic(auto, unfolding(dtal_code::specs::Grammar::size_of))]
fn count_in_blocks(blocks: &[Block]) -> u64
    requires { size_of blocks.now ≤ LAST_NUMBER }
    ensures { result ≡ size_of blocks.now }
{
    let mut count = 0u64;
    'each: for block in blocks {
        count += block.code.as_slice().len() as u64;
    }
    count
}
