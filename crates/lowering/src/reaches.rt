//! How many places code names.

ghost use Rattle.std.specs.Prelude.{◌≡◌, IfOk, max};
ghost use Rattle.lowering.specs.Lowered as spec;

use three_address::LowInstr;
use value_lowering::Stop;

// The greater one.
fn greater(left: u16, right: u16) -> u16
    ensures { result ≡ max left right }
{
    if left < right { right } else { left }
}

// One more than the greatest of some places, or the number that is given where it is greater.
#[tactic(auto, unfolding(crate::specs::Lowered::places_reach))]
fn places_reach(places: &[u16], least: u16) -> Result<u16, Stop>
    ensures { IfOk result (λ reach. reach ≡ max least (spec.places_reach places.now)) }
{
    let mut reach = least;
    let mut rest = places;
    'places: while let [place, later @ ..] = rest {
        let Some(next) = place.checked_add(1) else {
            return Err(Stop::Large);
        };
        reach = greater(reach, next);
        rest = later;
    }
    Ok(reach)
}

/// One more than the greatest place that is named, or the number that is given where it is greater.
#[tactic(auto, unfolding(crate::specs::Lowered::code_reach))]
pub(crate) fn code_reach(code: &[LowInstr], least: u16) -> Result<u16, Stop>
    ensures { IfOk result (λ reach. reach ≡ max least (spec.code_reach code.now)) }
{
    let mut reach = least;
    let mut rest = code;
    'code: while let [instr, later @ ..] = rest {
        reach = places_reach(instr.places.as_slice(), reach)?;
        rest = later;
    }
    Ok(reach)
}
