//! Rows against rows.
ghost use Rattle.std.specs.Prelude.{◌≡◌, ◌||◌};
ghost use Rattle.std.specs.List.{list_any};
ghost use Rattle.index_sorts.specs.Known.{holds_always};
ghost use Rattle.xan_lin.specs.Same.{same_form};

use xan_lin::Form;

// Whether the row has no variable and its constant is at least 0.
fn holds_in_any_case(row: &Form) -> bool
    ensures { result ≡ holds_always row.now }
{
    row.terms().is_empty() && row.constant_part() >= 0
}

// Whether the row is one of these.
fn is_listed(row: &Form, rows: &[Form]) -> bool
    ensures { result ≡ list_any (same_form row.now) rows.now }
{
    rows.iter().any(|listed| row.is_same(listed))
}

// Whether the row holds in any case or is one of these.
pub(crate) fn is_known(row: &Form, rows: &[Form]) -> bool
    ensures { result ≡ (holds_always row.now || list_any (same_form row.now) rows.now) }
{
    holds_in_any_case(row) || is_listed(row, rows)
}
