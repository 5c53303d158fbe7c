//! Arithmetic on the numbers of rows.
ghost use Rattle.std.specs.Prelude.{◌≡◌, IsTrue};
ghost use Rattle.proof_lines.specs.Rows.{floor_over};
ghost use Rattle.proof_lines.specs.Check.{is_positive};
ghost use Rattle.proof_lines.specs.Cells.{is_zero};

/// The floor of the number over a divisor of at least 1.
pub(crate) fn number_floor(number: &i64, by: &i64) -> i64
    requires { IsTrue (is_positive by.now) }
    ensures { result ≡ floor_over number.now by.now }
{
    number.div_euclid(*by)
}

/// Whether the number is 0.
pub(crate) fn is_zero(number: &i64) -> bool
    ensures { result ≡ is_zero number.now }
{
    *number == 0
}
