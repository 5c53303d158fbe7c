//! Homes of places: the present way, where each place of a function has a slot of its own.

ghost use Rattle.std.specs.Prelude.{◌≡◌, ◌≤◌, All, IfOk};
ghost use Rattle.program_builder.specs.Slots as spec;
ghost use Rattle.program_builder.specs.Slots.{HasFewPlaces};

use std::alloc::Global;
use three_address::{Assignment, LowFun, PLACES};
use xan_io::Memory;
use xan_seq::Seq;

// The number of the first slot among homes.
const FIRST_SLOT: u8 = 16;

// The slots of so many places.
#[tactic(auto, unfolding(crate::specs::Slots::slots))]
fn slots(alloc: Global, count: u16) -> Result<Vec<u8>, Memory>
    requires { count ≤ PLACES }
    ensures { IfOk result (λ homes. homes.items ≡ spec.slots count) }
{
    let mut homes = Vec::new(alloc);
    'places: for place in 0..count {
        homes.push(FIRST_SLOT + place as u8)?;
    }
    Ok(homes)
}

/// Each place of each function in a slot of its own.
pub(crate) fn assign_slots(alloc: Global, funs: &[LowFun]) -> Result<Assignment, Memory>
    requires { All HasFewPlaces funs.now }
    ensures { IfOk result (λ homes. homes.homes ≡ spec.all_slots funs.now) }
{
    let mut all = Vec::new(alloc);
    for fun in funs {
        let homes = slots(alloc, fun.places)?;
        all.push(Seq::from_vec(homes))?;
    }
    Ok(Assignment {
        homes: Seq::from_vec(all),
    })
}
