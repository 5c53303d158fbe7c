//! Homes of places, and the moves between slots and scratch registers.

ghost use Rattle.std.specs.Prelude.{◌≡◌, ◌≤◌, ◌+◌, ◌++◌, length, take, OnOk, IfOk};
ghost use Rattle.dtal_emit.specs.Homes as spec;

use crate::out::push_move;
use arrayvec::ArrayVec;
use dtal_code::Instr;
use dtal_code::limits::REGISTERS;
use std::alloc::Global;
use xan_io::Memory;

/// The first of the registers that are no home of a place.
pub(crate) const SCRATCH: u8 = three_address::REGISTERS;

/// The home of a place.
pub(crate) fn home_of(homes: &[u8], place: u16) -> u8
    ensures { result ≡ spec.home_of homes.now place }
{
    match homes.get(place as usize) {
        Some(home) => *home,
        None => 0,
    }
}

// The first places, at most eight.
fn first_eight(places: &[u16]) -> &[u16]
    ensures first { result.now ≡ take 8 places.now }
    ensures few { length result.now ≤ 8 }
{
    if places.len() <= 8 {
        places
    } else {
        &places[..8]
    }
}

/// The homes of places, at most eight.
pub(crate) fn homes_of(homes: &[u8], places: &[u16]) -> ArrayVec<u8, 8>
    ensures { result.items ≡ spec.homes_of homes.now places.now }
{
    let few = first_eight(places);
    let mut found = ArrayVec::new();
    for place in few {
        found.push(home_of(homes, *place));
    }
    found
}

fn is_slot(home: u8) -> bool
    ensures { result ≡ spec.is_slot home }
{
    u32::from(home) >= REGISTERS
}

// The register in which a word is read or written first.
fn register_of(scratch: u8, home: u8) -> u8
    ensures { result ≡ spec.register_of scratch home }
{
    if is_slot(home) { scratch } else { home }
}

// The next scratch register.
fn scratch_behind(scratch: u8, home: u8) -> u8
    requires { scratch ≤ 254 }
    ensures exact { result ≡ spec.scratch_behind scratch home }
    ensures next { result ≤ scratch + 1 }
{
    if is_slot(home) { scratch + 1 } else { scratch }
}

/// Adds the moves of words that are read from slots, and answers the registers in which the words are then.
#[tactic(auto, unfolding(crate::specs::Homes::loads, crate::specs::Homes::registers))]
pub(crate) fn load(
    alloc: Global,
    out: &mut Vec<Instr>,
    homes: &ArrayVec<u8, 8>,
) -> Result<ArrayVec<u8, 8>, Memory>
    ensures moves { OnOk result (out.new.items ≡ out.old.items ++ spec.loads SCRATCH homes.now.items) }
    ensures registers { IfOk result (λ found. found.items ≡ spec.registers SCRATCH homes.now.items) }
{
    let mut found = ArrayVec::new();
    let mut scratch = SCRATCH;
    let mut rest = homes.as_slice();
    'homes: while let [home, later @ ..] = rest {
        push_move(alloc, out, is_slot(*home), scratch, *home)?;
        found.push(register_of(scratch, *home));
        scratch = scratch_behind(scratch, *home);
        rest = later;
    }
    Ok(found)
}

/// The register into which a result goes first.
pub(crate) fn results(homes: &ArrayVec<u8, 8>) -> ArrayVec<u8, 8>
    ensures { result.items ≡ spec.results homes.now.items }
{
    let mut found = ArrayVec::new();
    if let Some(home) = homes.as_slice().first() {
        found.push(register_of(SCRATCH, *home));
    }
    found
}

/// Adds the move of a result to its slot.
pub(crate) fn store(
    alloc: Global,
    out: &mut Vec<Instr>,
    homes: &ArrayVec<u8, 8>,
) -> Result<(), Memory>
    ensures { OnOk result (out.new.items ≡ out.old.items ++ spec.stores homes.now.items) }
{
    match homes.as_slice().first() {
        Some(home) => push_move(alloc, out, is_slot(*home), *home, SCRATCH),
        None => Ok(()),
    }
}

/// Adds the moves of the first parameters, so many of them, to their slots.
#[tactic(auto, unfolding(crate::specs::Homes::entry_moves))]
pub(crate) fn enter(
    alloc: Global,
    out: &mut Vec<Instr>,
    homes: &[u8],
    count: u8,
) -> Result<(), Memory>
    ensures { OnOk result (out.new.items ≡ out.old.items ++ spec.entry_moves homes.now count) }
{
    'parameters: for place in 0..count {
        let home = home_of(homes, u16::from(place));
        push_move(alloc, out, is_slot(home), home, place)?;
    }
    Ok(())
}
