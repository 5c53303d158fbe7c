//! The reading of forms, as `+2v0-1v3+0`.
ghost use Rattle.std.specs.Prelude.{◌≡◌, ◌++◌};
ghost use Rattle.xan_read.specs.Code.{Gives};
ghost use Rattle.proof_lines.specs.Reading.{after_number, form_part, form};

use arrayvec::ArrayVec;
use xan_lin::{BOUND, Form, Term};
use xan_read::{Fault, after, number, signed};

/// The greatest magnitude of a number of a form, without a sign.
const LARGEST: u64 = BOUND as u64;

/// The greatest number of a variable.
const LAST_VARIABLE: u64 = 4294967295;

/// A part of a form.
#[derive(Clone, Copy, Drop)]
pub(crate) enum Part {
    /// A coefficient and its variable.
    Term(Term),
    /// The constant, which ends the form.
    Constant(i64),
}

// The part that begins with this number, and the bytes behind it.
#[tactic(auto, unfolding(crate::specs::Reading::after_number))]
fn read_after_number(bytes: &[u8], low: u64, coef: i64) -> Result<(Part, &[u8]), Fault>
    ensures { Gives (λ x. (x.0, x.1.now)) result (after_number low coef bytes.now) }
{
    if coef == 0 || low > LAST_VARIABLE {
        return Ok((Part::Constant(coef), bytes));
    }
    match after(bytes, b'v') {
        Some(rest) => {
            let (var, rest) = number(rest, low, LAST_VARIABLE)?;
            let var = var as u32;
            Ok((Part::Term(Term { var, coef }), rest))
        }
        None => Ok((Part::Constant(coef), bytes)),
    }
}

// The part at the front, with a variable from `low` on, and the bytes behind it.
#[tactic(auto, unfolding(crate::specs::Reading::form_part))]
fn read_part(bytes: &[u8], low: u64) -> Result<(Part, &[u8]), Fault>
    ensures { Gives (λ x. (x.0, x.1.now)) result (form_part low bytes.now) }
{
    let (coef, rest) = signed(bytes, 0, LARGEST)?;
    read_after_number(rest, low, coef)
}

type Parts = (ArrayVec<Term, 16>, i64);

// The terms and the constant of the form at the front, and the bytes behind it.
fn read_parts(bytes: &[u8]) -> Result<(Parts, &[u8]), Fault>
    ensures { Gives (λ x. (record { terms = x.0.0.items; constant = x.0.1 }, x.1.now)) result (form 16 0 bytes.now) }
{
    let mut terms = ArrayVec::new();
    let mut low = 0u64;
    let mut rest = bytes;
    'parts: for _ in 0..16usize {
        let (part, others) = read_part(rest, low)?;
        match part {
            Part::Term(term) => {
                terms.push(term);
                low = u64::from(term.var) + 1;
                rest = others;
            }
            Part::Constant(constant) => return Ok(((terms, constant), others)),
        }
    }
    let (constant, rest) = signed(rest, 0, LARGEST)?;
    Ok(((terms, constant), rest))
}

/// The form at the front, and the bytes behind it, as `+2v0-1v3+0`: at most 16 terms of rising variables, each number within `BOUND`.
///
/// The fault stands where no form has the bytes so far (`docs/dtal.md`).
pub fn read_form(bytes: &[u8]) -> Result<(Form, &[u8]), Fault>
    ensures { Gives (λ x. (x.0, x.1.now)) result (form 16 0 bytes.now) }
{
    let ((terms, constant), rest) = read_parts(bytes)?;
    let Ok(form) = Form::from_terms(terms.as_slice(), constant) else {
        unreachable!()
    };
    Ok((form, rest))
}
