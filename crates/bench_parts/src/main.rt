//! How fast parts of the programs are: the program of `tools/bench.sh` and `tools/bench_solver.sh`, whose clock is the shell's.
//!
//! Its words are `combs LINES TIMES` or `cuts LINES TIMES` (a proof of so many lines is checked so many times), `chain VARIABLES TIMES` or
//! `curve ROWS TIMES` (the same goal is asked for so many times), `tokens SOURCE TIMES` or `trees SOURCE TIMES` (the tokens of a source are made
//! so many times, or its tokens once and then its tree so many times).
#![tactic(auto)]

mod goals;
mod lines;
mod proof;
mod sources;
mod systems;

use crate::goals::goals_proved;
use crate::lines::proofs_accepted;
use crate::sources::{SOURCE_MOST, tokens_read};
use std::alloc::Global;
use std::process::ExitCode;
use std::{env, io};
use xan_io::{FileRead, Files, HostFiles};

fn main(rt: HostRuntime) -> io::Result<ExitCode> {
    let alloc = rt.alloc();
    let words: Vec<String> = env::args(&rt)?.collect(alloc)?;
    let [_name, kind, what, times] = words.as_slice() else {
        return Ok(ExitCode::from(2));
    };
    let Ok(times) = times.parse::<u32>() else {
        return Ok(ExitCode::from(2));
    };
    let mut files = HostFiles::new(&rt);
    match count(alloc, &mut files, kind.as_str(), what.as_str(), times) {
        Some(count) => {
            println!(rt; "{kind} {what}: {count}")?;
            Ok(ExitCode::from(0))
        }
        None => Ok(ExitCode::from(6)),
    }
}

/// What was done of this kind: how often a proof was accepted or a goal proved, or how many tokens the source has; unless the words are none,
/// the source is not read, or memory runs out.
fn count<F: Files>(
    alloc: Global,
    files: &mut F,
    kind: &str,
    what: &str,
    times: u32,
) -> Option<u64> {
    match kind {
        "tokens" | "trees" => {
            let FileRead::Whole(bytes) = files.read(alloc, what, SOURCE_MOST as u64).ok()? else {
                return None;
            };
            tokens_read(alloc, kind == "trees", bytes.as_slice(), times)
        }
        "chain" | "curve" => goals_proved(alloc, kind == "chain", what.parse::<u32>().ok()?, times),
        _ => proofs_accepted(alloc, kind == "cuts", what.parse::<u32>().ok()?, times),
    }
}
