//! The words of a program.

ghost use Rattle.std.specs.Prelude.{◌≡◌, ◌+◌, ◌≤◌, ◌<◌, ◌^◌, ◌++◌, [], ◌∷◌, map, OnOk, IfOk, IsSome, Some, option_map, length};
ghost use Rattle.std.specs.List.{All};
ghost use Rattle.dtal_code.specs.declared.limits.TheConstants.{LAST_NUMBER};
ghost use Rattle.dtal_code.specs.Acceptance.{Accepted};
ghost use Rattle.dtal_code.specs.Declarations.{main_of};
ghost use Rattle.dtal_code.specs.Grammar.{IsInstr, AreBlocks, IsFunction, size_of};
ghost use Rattle.dtal_code.specs.Instructions.{resolved};
ghost use Rattle.dtal_code.specs.ObjectCode.{instrs_of, function_code, functions_code, starts_from, program_size};
ghost use Rattle.dtal_code.specs.ObjectWords.{words_of, object_words, IsObject};
ghost use Rattle.dtal_assembler.specs.Labels.{IsCoded, table_target};

use crate::counting::{count_in_blocks, count_in_functions};
use crate::labels::find_labels;
use crate::main_function::find_main;
use crate::resolving::resolve;
use dtal_code::{Block, DtalProgram, Function, Instr, Object, encode};
use std::alloc::Global;
use xan_io::Memory;
use xan_seq::Seq;

/// The object of a program that is accepted: its instructions as words, in the order of its text, with labels resolved. `Memory` comes
/// where memory ran out.
pub fn assemble(alloc: Global, program: &DtalProgram) -> Result<Object, Memory>
    requires { Accepted program.now }
    ensures { IfOk result (IsObject program.now) }
{
    let funs = program.funs.as_slice();
    let past = count_in_functions(funs);
    let mut words = Vec::new(alloc);
    let mut starts = Vec::new(alloc);
    put_functions(alloc, &mut words, &mut starts, past, funs)?;
    let main = find_main(funs);
    Ok(Object {
        words: Seq::from_vec(words),
        starts: Seq::from_vec(starts),
        main,
    })
}

// Appends the words of functions, and the number of the first instruction of each.
#[tactic(auto, using(crate::proofs::WordLists::word_lists), unfolding(dtal_code::specs::ObjectCode::functions_code, dtal_code::specs::ObjectCode::starts_from, dtal_code::specs::ObjectCode::program_size, dtal_code::specs::ObjectWords::object_words))]
fn put_functions(
    alloc: Global,
    words: &mut Vec<u64>,
    starts: &mut Vec<u64>,
    past: u64,
    funs: &[Function],
) -> Result<(), Memory>
    requires known { program_size funs.now ≤ past }
    requires functions { All IsFunction funs.now }
    ensures words { OnOk result (words.new.items ≡ words.old.items ++ object_words (functions_code past 0 funs.now)) }
    ensures starts { OnOk result (starts.new.items ≡ starts.old.items ++ starts_from 0 funs.now) }
{
    let mut start: u64 = 0;
    'each: for fun in funs {
        let blocks = fun.blocks.as_slice();
        starts.push(start)?;
        put_function(alloc, words, past, start, blocks)?;
        start += count_in_blocks(blocks);
    }
    Ok(())
}

// Appends the words of a function whose first instruction has the number `start`.
#[tactic(auto, using(crate::proofs::LabelTables::function_by_table))]
fn put_function(
    alloc: Global,
    words: &mut Vec<u64>,
    past: u64,
    start: u64,
    blocks: &[Block],
) -> Result<(), Memory>
    requires known { start + size_of blocks.now ≤ past }
    requires coded { AreBlocks blocks.now }
    ensures { OnOk result (words.new.items ≡ words.old.items ++ object_words (function_code past start blocks.now)) }
{
    let labels = find_labels(alloc, start, blocks)?;
    put_blocks(words, past, labels.as_slice(), blocks)
}

// Appends the words of blocks.
#[tactic(auto, using(crate::proofs::WordLists::word_lists), unfolding(dtal_code::specs::ObjectCode::instrs_of, dtal_code::specs::ObjectWords::object_words))]
fn put_blocks(
    words: &mut Vec<u64>,
    past: u64,
    labels: &[u64],
    blocks: &[Block],
) -> Result<(), Memory>
    requires { All IsCoded blocks.now }
    ensures { OnOk result (words.new.items ≡ words.old.items ++ object_words (map (λ i. resolved (table_target past labels.now) i.op) (instrs_of blocks.now))) }
{
    'each: for block in blocks {
        put_code(words, past, labels, block.code.as_slice())?;
    }
    Ok(())
}

// Appends the words of instructions.
#[tactic(auto, using(crate::proofs::WordLists::word_lists), unfolding(dtal_code::specs::ObjectWords::object_words))]
fn put_code(words: &mut Vec<u64>, past: u64, labels: &[u64], code: &[Instr]) -> Result<(), Memory>
    requires { All IsInstr code.now }
    ensures { OnOk result (words.new.items ≡ words.old.items ++ object_words (map (λ i. resolved (table_target past labels.now) i.op) code.now)) }
{
    'each: for instr in code {
        put_instr(words, past, labels, instr)?;
    }
    Ok(())
}

// Appends the two words of an instruction.
#[tactic(auto, using(crate::proofs::WordLists::word_lists), unfolding(dtal_code::specs::ObjectWords::object_words))]
fn put_instr(words: &mut Vec<u64>, past: u64, labels: &[u64], instr: &Instr) -> Result<(), Memory>
    requires { IsInstr instr.now }
    ensures { OnOk result (words.new.items ≡ words.old.items ++ object_words (resolved (table_target past labels.now) instr.now.op ∷ [])) }
{
    let (first, second) = encode(&resolve(&instr.op, past, labels));
    words.push(first)?;
    words.push(second)?;
    Ok(())
}
