//! Guesses of where rows with some coefficients stand among those in the making.
use std::alloc::Global;
use xan_lin::Memory;

// How many first guesses there are.
const HEADS: usize = 1 << 16;

// How many places may be guessed.
const PLACES: usize = 2001;

/// For each hash the places that were kept for it, the last of them first, so that rows of one hash cost no more than their number. They
/// are only guesses, are tested where they are used, and are never cleared: those of an earlier system serve or do no harm.
#[derive(Drop)]
pub(crate) struct Hints {
    // By hash, the place that was kept last.
    heads: Vec<u32>,
    // By place, its hash, and the place that was kept before it.
    hashes: Vec<u64>,
    links: Vec<u32>,
}

impl Hints {
    /// No guesses of use.
    pub(crate) fn new(alloc: Global) -> Result<Hints, Memory> {
        let Ok(heads) = vec![in alloc; 0; HEADS] else {
            return Err(Memory);
        };
        let Ok(hashes) = vec![in alloc; 0; PLACES] else {
            return Err(Memory);
        };
        let Ok(links) = vec![in alloc; 0; PLACES] else {
            return Err(Memory);
        };
        Ok(Hints {
            heads,
            hashes,
            links,
        })
    }

    /// The place that was kept last for this hash. One that has another hash is past all.
    pub(crate) fn first(&self, hash: u64) -> usize {
        self.of_hash(hash, self.head(hash) as usize)
    }

    /// The place that was kept before this one for its hash.
    pub(crate) fn next(&self, hash: u64, place: usize) -> usize {
        match self.links.get(place) {
            Some(before) => self.of_hash(hash, *before as usize),
            None => usize::MAX,
        }
    }

    /// Keeps a place for a hash.
    pub(crate) fn put(&mut self, hash: u64, place: usize) {
        let Ok(number) = u32::try_from(place) else {
            return;
        };
        let before = self.head(hash);
        write_place(&mut self.links, place, before);
        write_hash(&mut self.hashes, place, hash);
        write_place(&mut self.heads, hash as usize % HEADS, number);
    }

    // The first guess for a hash.
    fn head(&self, hash: u64) -> u32 {
        match self.heads.get(hash as usize % HEADS) {
            Some(place) => *place,
            None => 0,
        }
    }

    // The place, where it has this hash, and else one past all.
    fn of_hash(&self, hash: u64, place: usize) -> usize {
        match self.hashes.get(place) {
            Some(kept) if *kept == hash => place,
            _ => usize::MAX,
        }
    }
}

// Writes a place at this number, where there is one.
fn write_place(places: &mut Vec<u32>, at: usize, place: u32) {
    if at < places.len() {
        places[at] = place;
    }
}

// Writes a hash at this number, where there is one.
fn write_hash(hashes: &mut Vec<u64>, at: usize, hash: u64) {
    if at < hashes.len() {
        hashes[at] = hash;
    }
}
