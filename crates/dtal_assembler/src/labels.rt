//! The table of a function's labels.

ghost use Rattle.std.specs.Prelude.{◌≡◌, ◌+◌, ◌<◌, ◌^◌, IfOk};
ghost use Rattle.dtal_code.specs.Grammar.{size_of};
ghost use Rattle.dtal_assembler.specs.Labels as spec;

use dtal_code::Block;
use std::alloc::Global;
use xan_io::Memory;

/// The number of the first instruction of each block, of a function whose first instruction has the number `start`.
#[tactic(auto, unfolding(crate::specs::Labels::label_starts, dtal_code::specs::Grammar::size_of))]
pub(crate) fn find_labels(
    alloc: Global,
    start: u64,
    mut blocks: &[Block],
) -> Result<Vec<u64>, Memory>
    requires { start + size_of blocks.now < 2 ^ 64 }
    ensures { IfOk result (λ labels. labels.items ≡ spec.label_starts start blocks.entry.now) }
{
    let mut labels = Vec::new(alloc);
    let mut at = start;
    'each: while let [block, later @ ..] = blocks {
        labels.push(at)?;
        at += block.code.as_slice().len() as u64;
        blocks = later;
    }
    Ok(labels)
}

/// Where a label leads by the table, or `past` where there is no such label.
pub(crate) fn target(past: u64, labels: &[u64], label: u32) -> u64
    ensures { result ≡ spec.table_target past labels.now label }
{
    let at = label as usize;
    if 0 < at && at < labels.len() {
        labels[at]
    } else {
        past
    }
}
