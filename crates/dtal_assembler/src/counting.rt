//! How many instructions there are.

ghost use Rattle.std.specs.Prelude.{◌≡◌, ◌<◌, ◌^◌};
ghost use Rattle.dtal_code.specs.Grammar.{size_of};
ghost use Rattle.dtal_code.specs.ObjectCode.{program_size};

use dtal_code::{Block, Function};

/// How many instructions the blocks have.
#[tactic(auto, unfolding(dtal_code::specs::Grammar::size_of))]
pub(crate) fn count_in_blocks(mut blocks: &[Block]) -> u64
    requires { size_of blocks.now < 2 ^ 64 }
    ensures { result ≡ size_of blocks.entry.now }
{
    let mut count: u64 = 0;
    'each: while let [block, later @ ..] = blocks {
        count += block.code.as_slice().len() as u64;
        blocks = later;
    }
    count
}

/// How many instructions the functions have.
#[tactic(auto, unfolding(dtal_code::specs::ObjectCode::program_size))]
pub(crate) fn count_in_functions(mut funs: &[Function]) -> u64
    requires { program_size funs.now < 2 ^ 64 }
    ensures { result ≡ program_size funs.entry.now }
{
    let mut count: u64 = 0;
    'each: while let [fun, later @ ..] = funs {
        count += count_in_blocks(fun.blocks.as_slice());
        funs = later;
    }
    count
}
