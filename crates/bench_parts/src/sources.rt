//! Readings of a source over and over.

ghost use Rattle.std.specs.Prelude.{◌≤◌, length};
ghost use Rattle.bench_parts.specs.declared.sources.TheConstants.{SOURCE_MOST};

use std::alloc::Global;
use xanadu_lexer::lex;
use xanadu_parser::parse;

/// The greatest length of a source in bytes.
pub const SOURCE_MOST: usize = 1_048_576;

/// How many tokens the source has, which are made so many times, or once and then their tree so many times, unless it is too long or has a fault,
/// or memory runs out.
pub fn tokens_read(alloc: Global, parsed: bool, source: &[u8], times: u32) -> Option<u64> {
    if source.len() > SOURCE_MOST {
        return None;
    }
    if parsed {
        trees_made(alloc, source, times)
    } else {
        tokens_made(alloc, source, times)
    }
}

/// How many tokens the source has, which are made so many times.
fn tokens_made(alloc: Global, source: &[u8], times: u32) -> Option<u64>
    requires { length source.now ≤ SOURCE_MOST }
{
    let mut count = 0;
    for _ in 0..times {
        count = lex(alloc, source).ok()?.as_slice().len();
    }
    Some(count as u64)
}

/// How many tokens the source has, whose tree is made of them so many times.
fn trees_made(alloc: Global, source: &[u8], times: u32) -> Option<u64>
    requires { length source.now ≤ SOURCE_MOST }
{
    let tokens = lex(alloc, source).ok()?;
    for _ in 0..times {
        let _tree = parse(alloc, tokens.as_slice(), source.len() as u32).ok()?;
    }
    Some(tokens.as_slice().len() as u64)
}
