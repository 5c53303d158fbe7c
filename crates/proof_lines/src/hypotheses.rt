//! The search for a row among the hypotheses.
ghost use Rattle.std.specs.Prelude.{◌≡◌};
ghost use Rattle.std.specs.List.{position};
ghost use Rattle.std.specs.Cmp.Lexicographic.{pointwise};
ghost use Rattle.index_sorts.specs.Known.{same_term, same_form};
ghost use Rattle.proof_lines.specs.Check.{is_listed};

use xan_lin::{Form, Term};

/// Whether the row is one of the hypotheses. The search begins at the place where the last one was found and goes round once, since
/// proofs mostly take hypotheses in their order.
pub(crate) fn is_listed(row: &Form, hyps: &[Form], last: &mut usize) -> bool
    ensures { result ≡ is_listed row.now hyps.now }
{
    let start = (*last).min(hyps.len());
    let (before, after) = hyps.split_at(start);
    if let Some(place) = place_of(row, after) {
        *last = start + place;
        return true;
    }
    if let Some(place) = place_of(row, before) {
        *last = place;
        return true;
    }
    false
}

// The first place at which the row is listed.
fn place_of(row: &Form, hyps: &[Form]) -> Option<usize>
    ensures { result ≡ position (same_form row.now) hyps.now }
{
    hyps.iter().position(|listed| are_same(row, listed))
}

// Whether the forms are equal.
fn are_same(left: &Form, right: &Form) -> bool
    ensures { result ≡ same_form left.now right.now }
{
    left.constant_part() == right.constant_part() && are_same_terms(left.terms(), right.terms())
}

// Whether the terms are equal.
fn are_same_terms(left: &[Term], right: &[Term]) -> bool
    ensures { result ≡ pointwise same_term left.now right.now }
{
    left == right
}
