//! Arithmetic on words, exact or none where the result is no word.

ghost use Rattle.std.specs.Prelude.{◌≡◌, ◌<ℤ◌, pos, ◌+ℤ◌, ◌-ℤ◌, ◌*ℤ◌};
ghost use Rattle.std.specs.Int.{int_div_euclid, int_rem_euclid};
ghost use Rattle.dtal_code.specs.Guessed.{comparison_of};
ghost use Rattle.dtal_code.specs.Instructions.{comparison};
ghost use Rattle.operation_rules.specs.Effects.{compares};
ghost use Rattle.dtal_machine.specs.Acting.{fitting};

/// The exact sum, where it is a word.
pub(crate) fn sum(left: i64, right: i64) -> Option<i64>
    ensures { result ≡ fitting (left +ℤ right) }
{
    left.checked_add(right)
}

/// The exact difference, where it is a word.
pub(crate) fn difference(left: i64, right: i64) -> Option<i64>
    ensures { result ≡ fitting (left -ℤ right) }
{
    left.checked_sub(right)
}

/// The exact product, where it is a word.
pub(crate) fn product(left: i64, right: i64) -> Option<i64>
    ensures { result ≡ fitting (left *ℤ right) }
{
    left.checked_mul(right)
}

/// The floor of the quotient by a divisor above 0.
pub(crate) fn quotient(left: i64, right: i64) -> i64
    requires { pos 0 <ℤ right }
    ensures { result ≡ int_div_euclid left right }
{
    left.div_euclid(right)
}

/// What that quotient leaves.
pub(crate) fn remainder(left: i64, right: i64) -> i64
    requires { pos 0 <ℤ right }
    ensures { result ≡ int_rem_euclid left right }
{
    left.rem_euclid(right)
}

/// Whether the comparison of this number holds.
pub(crate) fn holds(number: u32, left: i64, right: i64) -> bool
    ensures { result ≡ compares (comparison (comparison_of number)) left right }
{
    match number {
        0 => left < right,
        1 => left <= right,
        2 => left == right,
        _ => left != right,
    }
}
