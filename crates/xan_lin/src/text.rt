//! The spelling of forms. A text is made on the stack first, so that it goes out whole or not at all.
ghost use Rattle.std.specs.Prelude.{◌≡◌, ◌+◌, ◌*◌, ◌≤◌, ◌++◌, codes, decimal, length};
ghost use Rattle.arrayvec.specs.ArrayVec.{array_vec_len};
ghost use Rattle.xan_lin.specs.Text.{number_text, term_text, terms_text};

use crate::term::Term;
use arrayvec::ArrayVec;
use itoa::Buffer;

// Room for 16 terms and a constant: a number takes a sign and at most 40 digits.
pub(crate) type Text = ArrayVec<u8, 1353>;

// Appends the digits of a number.
fn put_digits(text: &mut Text, number: u64)
    requires { array_vec_len text.old + 40 ≤ 1353 }
    ensures items { text.new.items ≡ text.old.items ++ decimal number }
    ensures few { array_vec_len text.new ≤ array_vec_len text.old + 40 }
{
    let mut digits = Buffer::new();
    let Ok(()) = text.try_extend_from_slice(digits.format(number).as_bytes()) else {
        unreachable!()
    };
}

// Appends a number with its sign.
pub(crate) fn put_number(text: &mut Text, number: &i64)
    requires { array_vec_len text.old + 41 ≤ 1353 }
    ensures items { text.new.items ≡ text.old.items ++ number_text number.now }
    ensures few { array_vec_len text.new ≤ array_vec_len text.old + 41 }
{
    if *number < 0 {
        text.push(b'-');
    } else {
        text.push(b'+');
    }
    put_digits(text, number.unsigned_abs());
}

// Appends a term.
fn put_term(text: &mut Text, term: &Term)
    requires { array_vec_len text.old + 82 ≤ 1353 }
    ensures items { text.new.items ≡ text.old.items ++ term_text term.now }
    ensures few { array_vec_len text.new ≤ array_vec_len text.old + 82 }
{
    put_number(text, &term.coef);
    text.push(b'v');
    put_digits(text, u64::from(term.var));
}

// Appends the terms.
#[tactic(auto, unfolding(crate::specs::Text::terms_text))]
pub(crate) fn put_terms(text: &mut Text, terms: &[Term])
    requires { array_vec_len text.old + 82 * length terms.now ≤ 1353 }
    ensures items { text.new.items ≡ text.old.items ++ terms_text terms.now }
    ensures few { array_vec_len text.new ≤ array_vec_len text.old + 82 * length terms.now }
{
    for term in terms {
        put_term(text, term);
    }
}
