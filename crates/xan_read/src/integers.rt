//! Integers, with `-` where they are negative, or always with a sign.

ghost use Rattle.std.specs.Prelude.{◌≡◌, ◌<◌, ◌≤◌, ◌^◌, ℤ, pos};
ghost use Rattle.xan_read.specs.Code.{Gives};
ghost use Rattle.xan_read.specs.Integers.{integer, signed, negative};

use crate::fault::Fault;
use crate::literals::{after, literal};
use crate::numbers::number;

/// The integer below 0 of this magnitude.
fn negated(n: u64) -> i64
    requires some { 0 < n }
    requires fits { n ≤ 2 ^ 63 }
    ensures { result ≡ negative n }
{
    -((n - 1) as i64) - 1
}

/// The integer from `-below` to `above` at the front, and the bytes behind it. It has a `-` only where it is negative,
/// and no zero in front.
#[tactic(auto, unfolding(crate::specs::Integers::integer))]
pub fn integer(bytes: &[u8], below: u64, above: u64) -> Result<(i64, &[u8]), Fault>
    requires lowest { below ≤ 2 ^ 63 }
    requires highest { above < 2 ^ 63 }
    ensures { Gives (λ x. (x.0, x.1.now)) result (integer below above bytes.now) }
{
    match after(bytes, b'-') {
        Some(rest) => {
            let (n, rest) = number(rest, 1, below)?;
            Ok((negated(n), rest))
        }
        None => {
            let (n, rest) = number(bytes, 0, above)?;
            Ok((n as i64, rest))
        }
    }
}

/// The integer with a sign at the front, from `low` to `high` behind the sign, and the bytes behind it. 0 has a `+`.
#[tactic(auto, unfolding(crate::specs::Integers::signed))]
pub fn signed(bytes: &[u8], low: u64, high: u64) -> Result<(i64, &[u8]), Fault>
    requires { high < 2 ^ 63 }
    ensures { Gives (λ x. (x.0, x.1.now)) result (signed low high bytes.now) }
{
    match after(bytes, b'+') {
        Some(rest) => {
            let (n, rest) = number(rest, low, high)?;
            Ok((n as i64, rest))
        }
        None => {
            let rest = literal(bytes, b"-")?;
            let (n, rest) = number(rest, low.max(1), high)?;
            Ok((negated(n), rest))
        }
    }
}
