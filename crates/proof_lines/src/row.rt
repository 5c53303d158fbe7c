//! Arithmetic on the numbers of rows.
ghost use Rattle.std.specs.Prelude.{◌≡◌, ◌↔◌, ◌*ℤ◌, IsTrue, true, false, MatchOption};
ghost use Rattle.proof_lines.specs.Rows.{floor_over, is_multiple};
ghost use Rattle.proof_lines.specs.Check.{is_positive};

// The product of a number and a multiplier of at least 1.
fn product(number: &i64, by: &i64) -> i128
    requires { IsTrue (is_positive by.now) }
    ensures { result ≡ number.now *ℤ by.now }
{
    i128::from(*number) * i128::from(*by)
}

// Whether the number is the product of a quotient and a divisor.
fn is_product(quotient: &i64, by: &i64, number: &i64) -> bool
    requires { IsTrue (is_positive by.now) }
    ensures { IsTrue result ↔ (quotient.now *ℤ by.now ≡ number.now) }
{
    product(quotient, by) == i128::from(*number)
}

// The number over a divisor that divides it.
pub(crate) fn number_quotient(number: &i64, by: &i64) -> Option<i64>
    requires { IsTrue (is_positive by.now) }
    ensures { MatchOption result (is_multiple by.now number.now ≡ false)
        (λ quotient. (quotient ≡ floor_over number.now by.now) × (is_multiple by.now number.now ≡ true)) }
{
    let quotient = number_floor(number, by);
    if is_product(&quotient, by, number) {
        Some(quotient)
    } else {
        None
    }
}

// The floor of the number over the divisor.
pub(crate) fn number_floor(number: &i64, by: &i64) -> i64
    requires { IsTrue (is_positive by.now) }
    ensures { result ≡ floor_over number.now by.now }
{
    number.div_euclid(*by)
}
