//! Decimal numbers of a range.

ghost use Rattle.std.specs.Prelude.{◌≡◌, ◌+◌, ◌-◌, ◌*◌, ◌<◌, ◌≤◌, ◌&&◌, nat_le, nat_lt, if◌then◌else◌, option_map, IfSome, IfOk, length};
ghost use Rattle.std.specs.Char.{is_ascii_digit};
ghost use Rattle.xan_read.specs.Code.{Gives};
ghost use Rattle.xan_read.specs.Numbers.{number, digits_behind, can_begin, longer, next_digit, stop_at};

use crate::fault::Fault;

/// Whether one of the `width` numbers from `from` on is from `low` to `high`.
fn meets(low: u64, high: u64, from: u64, width: u64) -> bool
    requires { 0 < width }
    ensures { result ≡ (nat_le from high && nat_lt low (from + width)) }
{
    from <= high && low.saturating_sub(from) < width
}

/// Whether some number from `low` to `high` begins with the digits of `value`.
/// Whether some number from `low` to `high` begins with the digits of `value`.
#[tactic(auto, unfolding(crate::specs::Numbers::can_begin))]
fn can_begin(low: u64, high: u64, value: u64) -> bool
    requires { 0 < value }
    ensures { result ≡ can_begin low high value }
{
    let mut from = value;
    let mut width = 1u64;
    for _ in 0..20u64 {
        if meets(low, high, from, width) {
            return true;
        }
        if from > high / 10 {
            return false;
        }
        from *= 10;
        width *= 10;
    }
    meets(low, high, from, width)
}

/// The number with one more digit, if that is at most `high`.
fn appended(high: u64, value: u64, digit: u64) -> Option<u64>
    ensures { result ≡ (if nat_le (10 * value + digit) high then Some (10 * value + digit) else None) }
{
    let longer = value.checked_mul(10)?.checked_add(digit)?;
    if longer <= high { Some(longer) } else { None }
}

/// The number with one more digit, if some number from `low` to `high` begins so.
#[tactic(auto, using(crate::proofs::DigitRanges::too_large))]
fn longer(low: u64, high: u64, value: u64, b: u8) -> Option<u64>
    requires { 0 < 10 * value + (b - 48) }
    ensures { result ≡ longer low high value b }
{
    if !b.is_ascii_digit() {
        return None;
    }
    let value = appended(high, value, (b - b'0') as u64)?;
    if can_begin(low, high, value) {
        Some(value)
    } else {
        None
    }
}

/// The number with the digit at the front, if some number from `low` to `high` begins so, and the bytes behind it.
#[tactic(auto, unfolding(crate::specs::Numbers::next_digit))]
fn next_digit(bytes: &[u8], low: u64, high: u64, value: u64) -> Option<(u64, &[u8])>
    requires { 0 < value }
    ensures digit { option_map (λ x. (x.0, x.1.now)) result ≡ next_digit low high value bytes.now }
    ensures positive { IfSome result (λ x. 0 < x.0) }
    ensures shorter { IfSome result (λ x. length x.1.now < length bytes.now) }
{
    match bytes {
        [b, rest @ ..] => match longer(low, high, value, *b) {
            Some(more) => Some((more, rest)),
            None => None,
        },
        [] => None,
    }
}

/// The value, where it is from `low` to `high`, and else the place behind its last digit.
fn stop_at(rest: &[u8], low: u64, high: u64, value: u64) -> Result<(u64, &[u8]), Fault>
    ensures exact { Gives (λ x. (x.0, x.1.now)) result (stop_at low high value rest.now) }
    ensures within { IfOk result (λ x. (low ≤ x.0) × (x.0 ≤ high)) }
{
    if low <= value && value <= high {
        Ok((value, rest))
    } else {
        Err(Fault { left: rest.len() })
    }
}

/// The value of the digits at the front, which follow those of `first`, and the bytes behind them.
#[tactic(auto, using(crate::proofs::DigitRanges::digits_step, crate::proofs::DigitRanges::digits_end))]
fn digits_behind(bytes: &[u8], low: u64, high: u64, first: u64) -> Result<(u64, &[u8]), Fault>
    requires { 0 < first }
    ensures exact { Gives (λ x. (x.0, x.1.now)) result (digits_behind low high first bytes.now) }
    ensures within { IfOk result (λ x. (low ≤ x.0) × (x.0 ≤ high)) }
{
    let mut value = first;
    let mut rest = bytes;
    'digits: while let Some((more, others)) = next_digit(rest, low, high, value) {
        value = more;
        rest = others;
    }
    stop_at(rest, low, high, value)
}

/// The number from `low` to `high` at the front, and the bytes behind it. It has no sign and no zero in front.
/// A digit belongs to it only where some number from `low` to `high` begins so.
#[tactic(auto, unfolding(crate::specs::Numbers::number))]
pub fn number(bytes: &[u8], low: u64, high: u64) -> Result<(u64, &[u8]), Fault>
    ensures exact { Gives (λ x. (x.0, x.1.now)) result (number low high bytes.now) }
    ensures within { IfOk result (λ x. (low ≤ x.0) × (x.0 ≤ high)) }
{
    match bytes {
        [b'0', rest @ ..] if low == 0 => Ok((0, rest)),
        [b, rest @ ..] if *b > b'0' => match longer(low, high, 0, *b) {
            Some(first) => digits_behind(rest, low, high, first),
            None => Err(Fault { left: bytes.len() }),
        },
        _ => Err(Fault { left: bytes.len() }),
    }
}
