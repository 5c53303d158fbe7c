//! The variables that bear on a row.
ghost use Rattle.std.specs.Prelude.{◌≡◌, ◌+◌, ◌*◌, ◌≤◌, length, nat_lt, true, false, IsTrue, if◌then◌else◌};
ghost use Rattle.proof_lines.specs.Variables.{is_among, with_terms};
ghost use Rattle.linear_solver.specs.Cone.{touches, reached, cone};

use crate::found::Found;
use xan_lin::{Form, Term};

/// The most variables that may bear on a goal.
pub(crate) const MOST_VARIABLES: usize = 64;

/// Leaves the variables that bear on a row: its own, and with a variable of a hypothesis all of that hypothesis. It is false where they are
/// more than 64, and then what is left is open.
#[tactic(auto, unfolding(crate::specs::Cone::cone))]
pub(crate) fn find_cone(hyps: &[Form], start: &Form, found: &mut Found) -> bool
    requires few { length hyps.now ≤ 512 }
    ensures found { IsTrue result → found.new ≡ cone hyps.now start.now }
    ensures few { IsTrue result → length found.new ≤ 64 }
    ensures many { result ≡ false → nat_lt 64 (length (cone hyps.now start.now)) ≡ true }
{
    found.clear();
    add_terms(found, start.terms());
    'walks: for _walk in 0..hyps.len() {
        if found.count() > MOST_VARIABLES {
            return false;
        }
        let before = found.count();
        reach(found, hyps);
        if found.count() == before {
            return true;
        }
    }
    if found.count() > MOST_VARIABLES {
        return false;
    }
    true
}

// Adds the variables of each row that has one of them, in one walk over the rows.
#[tactic(auto, unfolding(crate::specs::Cone::reached))]
fn reach(found: &mut Found, rows: &[Form])
    requires { length found.old + 16 * length rows.now ≤ 8272 }
    ensures { found.new ≡ reached found.old rows.now }
{
    let mut rest = rows;
    'rows: while let [row, later @ ..] = rest {
        reach_row(found, row.terms());
        rest = later;
    }
}

// Adds the variables of these terms, where one of them is there.
fn reach_row(found: &mut Found, terms: &[Term])
    requires { length found.old + length terms.now ≤ 8272 }
    ensures found { found.new ≡ (if touches found.old terms.now then with_terms found.old terms.now else found.old) }
    ensures few { length found.new ≤ length found.old + length terms.now }
{
    if found.touches(terms) {
        add_terms(found, terms);
    }
}

/// Whether one of the terms has one of the variables.
pub(crate) fn touches(vars: &[u32], terms: &[Term]) -> bool
    ensures { result ≡ touches vars.now terms.now }
{
    terms.iter().any(|term| is_among(term.var, vars))
}

/// Whether the variable is one of these.
pub(crate) fn is_among(var: u32, vars: &[u32]) -> bool
    ensures { result ≡ is_among var vars.now }
{
    vars.iter().any(|other| *other == var)
}

// Adds the variables of these terms.
#[tactic(auto, unfolding(proof_lines::specs::Variables::with_terms))]
fn add_terms(found: &mut Found, terms: &[Term])
    requires { length found.old + length terms.now ≤ 8272 }
    ensures found { found.new ≡ with_terms found.old terms.now }
    ensures few { length found.new ≤ length found.old + length terms.now }
{
    let mut rest = terms;
    'terms: while let [term, later @ ..] = rest {
        found.add(term.var);
        rest = later;
    }
}
