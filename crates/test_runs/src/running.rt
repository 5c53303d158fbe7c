// What comes of a text and the words of a command line.
use dtal_driver::dtal_top;
use std::alloc::Global;
use xan_io::{MemFiles, MemSink, Memory};

/// A text, words, and the status and the lines that they give.
pub type Row = (&'static [u8], &'static [&'static str], u8, &'static [u8]);

/// How a run came out: its status, and what it said.
#[derive(Drop)]
pub struct Outcome {
    pub status: u8,
    pub said: Vec<u8>,
}

/// A run over files in memory, of which the calls of these numbers fail, and a sink with room, of which these puts fail.
pub fn run(
    alloc: Global,
    words: &[&str],
    text: Option<&[u8]>,
    fails: Vec<u64>,
    room: u64,
    put_fails: Vec<u64>,
) -> Result<Outcome, Memory> {
    let mut files = MemFiles::new(alloc, fails);
    if let Some(bytes) = text {
        files.set("text", bytes)?;
    }
    let mut out = MemSink::new(alloc, room, put_fails)?;
    let status = dtal_top(alloc, words, &mut files, &mut out);
    let said = Vec::from_slice(alloc, out.bytes())?;
    Ok(Outcome { status, said })
}

/// Whether a run where nothing fails comes out so.
pub fn comes_out(
    alloc: Global,
    words: &[&str],
    text: Option<&[u8]>,
    status: u8,
    said: &[u8],
) -> Result<bool, Memory> {
    let run = run(alloc, words, text, Vec::new(alloc), 1000, Vec::new(alloc))?;
    Ok(run.status == status && run.said.as_slice() == said)
}

pub fn one(alloc: Global, number: u64) -> Result<Vec<u64>, Memory> {
    let mut numbers = Vec::new(alloc);
    numbers.push(number)?;
    Ok(numbers)
}

/// How many rows come out as they say.
pub fn agreeing(alloc: Global, rows: &[Row]) -> Result<usize, Memory> {
    let mut count = 0usize;
    for (text, words, status, said) in rows {
        if comes_out(alloc, words, Some(text), *status, said)? {
            count = count.saturating_add(1);
        }
    }
    Ok(count)
}
