//! The types of places.

ghost use Rattle.std.specs.Prelude.{◌≡◌, ◌≢◌, ◌==◌, ℕ, ◌<◌, ◌≤◌, Some, if◌then◌else◌, true, false, nat_lt, [], length, OnOk, OnErr, IfOk, option_map};
ghost use Rattle.std.specs.List.{slice_index_or as get_or};
ghost use Rattle.std.specs.List.Sorted.{IsPartitionPoint};
ghost use Rattle.state_types.specs.PlaceTypes as spec;

use crate::types::Ty;
use std::alloc::Global;
use std::marker::Model;
use xan_lin::Memory;

/// The types of some places. It is seen as the list of the places with their types, by rising place.
#[derive(Drop)]
pub struct Places {
    entries: Vec<(u16, Ty)>,
}

impl Model for Places {
    ghost use Rattle.std.specs.Prelude.{List, ℕ};
    ghost use Rattle.std.specs.Coded.{codes};
    ghost use Rattle.state_types.specs.contracts.types.Ty as ty;
    ghost use Rattle.state_types.specs.declared.types.Ty.{Ty as Plain};

    ghost Value = { List (ℕ × Plain) };

    ghost coded = { Prim.hlevel (codes, ty.the_row.coded) };

    ghost use Rattle.state_types.specs.PlaceTypes.{PlacesRise};

    ghost view = { λ places. places.entries.items };

    ghost invariant = { λ places. PlacesRise 0 places.entries.items };
}

// How many of the entries are before the place.
fn count_before(entries: &[(u16, Ty)], place: u16) -> usize
    requires { spec.PlacesRise 0 entries.now }
    ensures point { IsPartitionPoint (λ e. nat_lt e.0 place ≡ true) (λ e. nat_lt e.0 place ≡ false) entries.now result }
    ensures within { result ≤ length entries.now }
{
    entries.partition_point(|entry| entry.0 < place)
}

// The type that is listed for the place.
fn type_among(entries: &[(u16, Ty)], place: u16) -> Option<&Ty>
    requires { spec.PlacesRise 0 entries.now }
    ensures { option_map (λ ty. ty.now) result ≡ spec.type_at place entries.now }
{
    let at = count_before(entries, place);
    let Some((found, ty)) = entries.get(at) else {
        return None;
    };
    if *found == place { Some(ty) } else { None }
}

// Whether the entry at this position is that of the place.
fn is_at(entries: &[(u16, Ty)], at: usize, place: u16) -> bool
    ensures found { result ≡ true → (d : ℕ × spec.Ty) → (at < length entries.now) × ((get_or entries.now at d).0 ≡ place) }
    ensures absent { result ≡ false → (d : ℕ × spec.Ty) → at < length entries.now → (get_or entries.now at d).0 ≢ place }
{
    match entries.get(at) {
        Some(entry) => entry.0 == place,
        None => false,
    }
}

// Writes the type of the place where it stands or belongs.
fn set_among(entries: &mut Vec<(u16, Ty)>, place: u16, ty: Ty) -> Result<(), Memory>
    requires { spec.PlacesRise 0 entries.old.items }
    ensures set { OnOk result (entries.new.items ≡ spec.with_type place ty entries.old.items) }
    ensures unchanged { OnErr result (entries.new.items ≡ entries.old.items) }
{
    let at = count_before(entries.as_slice(), place);
    if is_at(entries.as_slice(), at, place) {
        entries[at] = (place, ty);
        return Ok(());
    }
    let Ok(()) = entries.insert(at, (place, ty)) else {
        return Err(Memory);
    };
    Ok(())
}

// The same entries in a vector of their own.
fn copied_entries(alloc: Global, entries: &[(u16, Ty)]) -> Result<Vec<(u16, Ty)>, Memory>
    ensures { IfOk result (λ copied. copied.items ≡ entries.now) }
{
    let mut copied = Vec::new(alloc);
    for entry in entries {
        let Ok(()) = copied.push((entry.0, entry.1.copy())) else {
            return Err(Memory);
        };
    }
    Ok(copied)
}

impl Places {
    /// No place has a type. It takes no memory.
    pub fn new(alloc: Global) -> Places
        ensures { result ≡ [] }
    {
        Places {
            entries: Vec::new(alloc),
        }
    }

    /// The places of these entries, which rise. It takes no memory.
    pub fn from_vec(entries: Vec<(u16, Ty)>) -> Places
        requires { spec.PlacesRise 0 entries.items }
        ensures { result ≡ entries.items }
    {
        Places { entries }
    }

    /// The `Vec` of the entries.
    pub fn into_vec(self) -> Vec<(u16, Ty)>
        ensures { result.items ≡ self }
    {
        let Places { entries } = self;
        entries
    }

    /// The places with their types, by rising place.
    pub fn entries(&self) -> &[(u16, Ty)]
        ensures entries { result.now ≡ self.now }
        ensures rising { spec.PlacesRise 0 result.now }
    {
        self.entries.as_slice()
    }

    /// The type of the place, or `None` where it has none.
    pub fn get(&self, place: u16) -> Option<&Ty>
        ensures { option_map (λ ty. ty.now) result ≡ spec.type_at place self.now }
    {
        type_among(self.entries.as_slice(), place)
    }

    /// Gives the place the type, in place of one that it has. After a refusal nothing has changed.
    pub fn set(&mut self, place: u16, ty: Ty) -> Result<(), Memory>
        ensures set { OnOk result (self.new ≡ spec.with_type place ty self.old) }
        ensures found { OnOk result ((other : ℕ) → spec.type_at other self.new ≡ (if place == other then Some ty else spec.type_at other self.old)) }
        ensures unchanged { OnErr result (self.new ≡ self.old) }
    {
        set_among(&mut self.entries, place, ty)
    }

    /// An equal map.
    pub fn copy(&self) -> Result<Places, Memory>
        ensures { IfOk result (λ places. places ≡ self.now) }
    {
        let entries = copied_entries(*self.entries.allocator(), self.entries.as_slice())?;
        Ok(Places { entries })
    }
}
