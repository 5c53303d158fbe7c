//! Wanted types beside the present ones.

ghost use Rattle.std.specs.Prelude.{◌≡◌, ◌+◌, [], IfOk};
ghost use Rattle.state_types.specs.Answers.{Gives};
ghost use Rattle.state_types.specs.Matching as spec;

use crate::error::StateError;
use crate::place_map::Places;
use crate::types::Ty;
use std::alloc::Global;
use xan_lin::Memory;

/// A wanted type and the present one, of the same kind.
#[derive(Drop)]
pub(crate) struct Pair {
    pub(crate) wanted: Ty,
    pub(crate) present: Ty,
}

// The pair, or the number where the kinds differ.
#[tactic(auto, unfolding(crate::specs::Matching::pair_of))]
fn make_pair(number: u32, wanted: &Ty, present: &Ty) -> Result<Pair, StateError>
    ensures { Gives (λ made. made) result (spec.pair_of number wanted.now present.now) }
{
    if !wanted.is_like(present) {
        return Err(StateError::Kind(number));
    }
    Ok(Pair {
        wanted: wanted.copy(),
        present: present.copy(),
    })
}

// The number after this one.
fn next_number(number: u32) -> Result<u32, Memory>
    ensures { IfOk result (λ next. next ≡ number + 1) }
{
    match number.checked_add(1) {
        Some(next) => Ok(next),
        None => Err(Memory),
    }
}

/// The pairs of two lists, or the number of the first at which the kinds differ, from 0.
#[tactic(auto, unfolding(crate::specs::Matching::pairs_of))]
pub(crate) fn pairs_of(
    alloc: Global,
    mut wanted: &[Ty],
    mut actual: &[Ty],
) -> Result<Vec<Pair>, StateError>
    ensures { Gives (λ pairs. pairs.items) result (spec.pairs_of 0 wanted.entry.now actual.entry.now []) }
{
    let mut made = Vec::new(alloc);
    let mut number = 0;
    while let [first, later @ ..] = wanted {
        let [present, others @ ..] = actual else {
            return Ok(made);
        };
        made.push(make_pair(number, first, present)?)?;
        number = next_number(number)?;
        wanted = later;
        actual = others;
    }
    Ok(made)
}

// The pair of a place, or its number where it has no type or one of another kind.
#[tactic(auto, unfolding(crate::specs::Matching::pair_at))]
fn pair_at(here: &Places, place: u16, wanted: &Ty) -> Result<Pair, StateError>
    ensures { Gives (λ made. made) result (spec.pair_at here.now (place, wanted.now)) }
{
    match here.get(place) {
        Some(present) => make_pair(u32::from(place), wanted, present),
        None => Err(StateError::Kind(u32::from(place))),
    }
}

/// The pairs of the wanted places, or the first place that has no type here or one of another kind.
#[tactic(auto, unfolding(crate::specs::Matching::pairs_at))]
pub(crate) fn pairs_at(
    alloc: Global,
    here: &Places,
    mut wanted: &[(u16, Ty)],
) -> Result<Vec<Pair>, StateError>
    ensures { Gives (λ pairs. pairs.items) result (spec.pairs_at here.now wanted.entry.now []) }
{
    let mut made = Vec::new(alloc);
    while let [entry, later @ ..] = wanted {
        made.push(pair_at(here, entry.0, &entry.1)?)?;
        wanted = later;
    }
    Ok(made)
}
