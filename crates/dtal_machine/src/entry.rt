//! The memory with which a run begins.

ghost use Rattle.std.specs.Prelude.{◌≡◌, ◌+◌, ◌*◌, ◌<◌, ◌≤◌, length, option_map};
ghost use Rattle.operation_rules.specs.Entry.{placed};
ghost use Rattle.operation_rules.specs.FlatWords.{flat_words};
ghost use Rattle.dtal_code.specs.Runs.{empty_store, entry_state};
ghost use Rattle.dtal_code.specs.declared.limits.TheConstants.{MOST_LISTED};
ghost use Rattle.dtal_machine.specs.Acting.{HasRoom, flat};
ghost use Rattle.dtal_machine.specs.Placing.{arg_placed, BeginsAt};
ghost use Rattle.dtal_machine.specs.declared.limits.TheConstants.{MOST_HEAP, MOST_DEPTH};

use crate::calls::put_places;
use crate::loading::LoadError;
use crate::run::Run;
use crate::store::{Store, put_block};
use arrayvec::ArrayVec;
use dtal_code::limits::PLACES;
use std::alloc::Global;
use xan_io::Arg;

// The word of an argument, whose cells go to the store; none where there is no room for them.
fn place_arg(arg: &Arg, store: &mut Store) -> Option<i64>
    requires { HasRoom store.old }
    ensures placed { arg_placed arg.now (flat store.old) ≡ option_map (λ word. (word, flat store.new)) result }
    ensures room { HasRoom store.new }
    ensures heap { store.new.heap ≡ store.old.heap }
{
    match arg {
        Arg::Int(number) => Some(*number),
        Arg::Bool(truth) => Some(i64::from(*truth)),
        Arg::Array(cells) => put_block(store, 0, cells.as_slice()),
    }
}

// The words of arguments.
fn place_args(args: &[Arg], store: &mut Store) -> Option<ArrayVec<i64, 8>>
    requires room { HasRoom store.old }
    requires few { length args.now ≤ MOST_LISTED }
    ensures placed { placed flat_words args.now (flat store.old) ≡ option_map (λ words. (words.items, flat store.new)) result }
    ensures room { HasRoom store.new }
    ensures heap { store.new.heap ≡ store.old.heap }
{
    let mut words = ArrayVec::new();
    'each: for arg in args {
        match place_arg(arg, store) {
            Some(word) => words.push(word),
            None => return None,
        }
    }
    Some(words)
}

/// A run at its first state, with all memory that it may want.
pub(crate) fn begin(
    alloc: Global,
    start: u64,
    args: &[Arg],
    heap: u64,
    depth: u64,
) -> Result<Run, LoadError>
    requires few { length args.now ≤ MOST_LISTED }
    requires heap_bound { heap ≤ MOST_HEAP }
    requires some { 0 < depth }
    requires depth_bound { depth ≤ MOST_DEPTH }
    ensures { BeginsAt (entry_state start depth (placed flat_words args.now (empty_store heap))) result }
{
    let mut store = Store {
        words: Vec::with_capacity(alloc, heap as usize)?,
        heap,
    };
    let mut places = Vec::with_capacity(alloc, PLACES as usize * depth as usize)?;
    let callers = Vec::with_capacity(alloc, depth as usize)?;
    let Some(words) = place_args(args, &mut store) else {
        return Err(LoadError::NoStore);
    };
    put_places(&mut places, words.as_slice());
    Ok(Run {
        at: start,
        result_to: None,
        places,
        callers,
        store,
        depth,
    })
}
