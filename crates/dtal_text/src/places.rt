//! Registers and places.

ghost use Rattle.std.specs.Prelude.{◌≡◌};
ghost use Rattle.xan_read.specs.Code.{Gives};
ghost use Rattle.dtal_text.specs.Places.{register, place};

use xan_read::{Fault, after, literal, number};

/// A register, `r0` to `r15`, and the bytes behind it.
#[tactic(auto, unfolding(crate::specs::Places::register))]
pub(crate) fn read_register(bytes: &[u8]) -> Result<(u8, &[u8]), Fault>
    ensures { Gives (λ x. (x.0, x.1.now)) result (register bytes.now) }
{
    let (register, rest) = number(literal(bytes, b"r")?, 0, 15)?;
    Ok((register as u8, rest))
}

/// A register or a slot, `s0` to `s239`, and the bytes behind it.
#[tactic(auto, unfolding(crate::specs::Places::place))]
pub(crate) fn read_place(bytes: &[u8]) -> Result<(u8, &[u8]), Fault>
    ensures { Gives (λ x. (x.0, x.1.now)) result (place bytes.now) }
{
    match after(bytes, b'r') {
        Some(rest) => {
            let (register, rest) = number(rest, 0, 15)?;
            Ok((register as u8, rest))
        }
        None => {
            let (slot, rest) = number(literal(bytes, b"s")?, 0, 239)?;
            Ok((slot as u8 + 16, rest))
        }
    }
}
