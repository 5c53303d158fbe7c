//! Sums of products of two words. Such a sum can pass 127 bits, so that it is kept in two halves.
ghost use Rattle.std.specs.Prelude.{◌≡◌, ◌↔◌, ◌+◌, ◌*◌, ◌^◌, ◌<◌, ◌≤◌, pos, ◌+ℤ◌, ◌-ℤ◌, ◌*ℤ◌, ◌<ℤ◌, unsigned_abs, IsTrue};
ghost use Rattle.xan_lin.specs.Wide.{whole, HasRoom, GrowsByOne};
ghost use Rattle.xan_lin.specs.Linear.{cut_number};

use crate::bound::cut;

// What the high half counts.
const HIGH: i128 = 1 << 64;

// A number: so many times 2^64, and the rest, which may be as large and of either sign.
#[derive(Clone, Copy, Drop)]
pub(crate) struct Wide {
    high: i128,
    low: i128,
}

// The number of a word.
pub(crate) fn widened(word: &i64) -> Wide
    ensures exact { whole result ≡ word.now }
    ensures high { unsigned_abs result.high ≡ 0 }
    ensures low { unsigned_abs result.low ≤ 2 ^ 63 }
{
    Wide {
        high: 0,
        low: i128::from(*word),
    }
}

// The exact product.
pub(crate) fn exact_product(left: &i64, right: &i64) -> i128
    ensures exact { result ≡ left.now *ℤ right.now }
    ensures small { unsigned_abs result < 2 ^ 127 }
{
    i128::from(*left) * i128::from(*right)
}

// The number in halves, the low one less than 2^64.
fn halves(number: &i128) -> Wide
    requires { unsigned_abs number.now < 2 ^ 127 }
    ensures exact { whole result ≡ number.now }
    ensures high { unsigned_abs result.high ≤ 2 ^ 63 }
    ensures low { unsigned_abs result.low < 2 ^ 64 }
{
    Wide {
        high: *number / HIGH,
        low: *number % HIGH,
    }
}

// The sum.
fn sum(left: &Wide, right: &Wide) -> Wide
    requires left { HasRoom left.now }
    requires right { HasRoom right.now }
    ensures exact { whole result ≡ whole left.now +ℤ whole right.now }
    ensures high { unsigned_abs result.high ≤ unsigned_abs left.now.high + unsigned_abs right.now.high }
    ensures low { unsigned_abs result.low ≤ unsigned_abs left.now.low + unsigned_abs right.now.low }
{
    Wide {
        high: left.high + right.high,
        low: left.low + right.low,
    }
}

// The number and a product more.
pub(crate) fn plus_product(number: &Wide, left: &i64, right: &i64) -> Wide
    requires { HasRoom number.now }
    ensures exact { whole result ≡ whole number.now +ℤ (left.now *ℤ right.now) }
    ensures grows { GrowsByOne number.now result }
{
    sum(number, &halves(&exact_product(left, right)))
}

// The number less a word.
pub(crate) fn less_word(number: &Wide, word: &i64) -> Wide
    requires high { unsigned_abs number.now.high < 2 ^ 99 }
    requires low { unsigned_abs number.now.low < 2 ^ 99 }
    ensures exact { whole result ≡ whole number.now -ℤ word.now }
    ensures room { HasRoom result }
{
    Wide {
        high: number.high,
        low: number.low - i128::from(*word),
    }
}

// The same number, its low half less than 2^64.
fn settled(number: &Wide) -> Wide
    requires { HasRoom number.now }
    ensures exact { whole result ≡ whole number.now }
    ensures high { unsigned_abs result.high < 2 ^ 101 }
    ensures low { unsigned_abs result.low < 2 ^ 64 }
{
    let rest = halves(&number.low);
    Wide {
        high: number.high + rest.high,
        low: rest.low,
    }
}

// Whether the number is less than 0.
pub(crate) fn is_negative(number: &Wide) -> bool
    requires { HasRoom number.now }
    ensures { IsTrue result ↔ (whole number.now <ℤ pos 0) }
{
    let number = settled(number);
    number.high < 0 || number.high == 0 && number.low < 0
}

// Whether the number is 0.
pub(crate) fn is_zero(number: &Wide) -> bool
    requires { HasRoom number.now }
    ensures { IsTrue result ↔ (whole number.now ≡ pos 0) }
{
    let number = settled(number);
    number.high == 0 && number.low == 0
}

// The number itself, where the high half is 1, 0 or -1.
fn joined(number: &Wide) -> i128
    requires high { unsigned_abs number.now.high < 2 }
    requires low { unsigned_abs number.now.low < 2 ^ 64 }
    ensures { result ≡ whole number.now }
{
    number.high * HIGH + number.low
}

// The number, or another one past the bound where it is past it.
pub(crate) fn cut_wide(number: &Wide) -> i64
    requires { HasRoom number.now }
    ensures { result ≡ cut_number (whole number.now) }
{
    let number = settled(number);
    if number.high.unsigned_abs() < 2 {
        cut(&joined(&number))
    } else {
        i64::MAX
    }
}
