//! Forms in which the variables are replaced. The answers are worked out by hand.
use std::alloc::Global;
use std::test::Fail;
use xan_lin::{BOUND, Form, Term, TooLarge};

// A multiple of a variable, and a constant.
type Piece = (u32, i64, i64);

// The form that is this piece.
fn form(piece: Piece) -> Option<Form> {
    let (var, coef, constant) = piece;
    let terms = [Term { var, coef }];
    Form::from_terms(terms.as_slice(), constant).ok()
}

// How the form is spelled, or by which bound it is too large.
fn spelled(alloc: Global, form: &Result<Form, TooLarge>) -> Option<Vec<u8>> {
    let mut text = Vec::new(alloc);
    match form {
        Ok(form) => form.write_form(&mut text).ok()?,
        Err(TooLarge::Terms) => text.extend_from_slice(b"terms").ok()?,
        Err(TooLarge::Magnitude) => text.extend_from_slice(b"magnitude").ok()?,
    }
    Some(text)
}

// What the form becomes where variables 3 and 5 are replaced.
fn replaced(alloc: Global, whole: &Form, third: Form, fifth: Form, below: u32) -> Option<Vec<u8>> {
    let values = [(3, third), (5, fifth)];
    spelled(alloc, &whole.subst(values.as_slice(), below))
}

// What stands for variable 3 and for variable 5 in `2 v3 - 2 v5 + v1 + 4`, the bound of the variables that stay, and the answer.
const ROWS: &[(Piece, Piece, u32, &[u8])] = &[
    ((7, 1, 1), (7, 1, 1), 2, b"+1v1+4"),
    ((7, 1, 1), (7, 1, 1), 1, b"+4"),
    ((7, 1, 1), (7, 1, 0), 100, b"+1v1+6"),
    ((5, 1, 0), (3, 1, 0), 0, b"-2v3+2v5+4"),
    ((5, 1, 0), (3, 1, 0), 100, b"+1v1-2v3+2v5+4"),
    ((1, 1, 0), (1, 0, 0), 6, b"+3v1+4"),
    ((0, 0, BOUND), (0, 0, BOUND), 0, b"+4"),
    ((0, 0, BOUND), (0, 0, 0), 0, b"magnitude"),
    ((0, BOUND, 0), (0, BOUND, 0), 0, b"+4"),
    ((0, BOUND, 0), (0, 1, 0), 0, b"magnitude"),
    (
        (0, 0, 2305843009213693949),
        (0, 0, 0),
        0,
        b"+4611686018427387902",
    ),
    ((0, 0, 2305843009213693950), (0, 0, 0), 0, b"magnitude"),
    (
        (4294967295, -1, 0),
        (4294967295, 1, 0),
        0,
        b"-4v4294967295+4",
    ),
];

#[test]
fn variables_are_replaced_at_once(rt: HostRuntime) -> Result<(), Fail> {
    let terms = [(5, -2), (3, 2), (1, 1)].map(|(var, coef)| Term { var, coef });
    let whole = Form::from_terms(terms.as_slice(), 4)?;
    for (third, fifth, below, wanted) in ROWS {
        let third = form(*third).ok_or("third")?;
        let fifth = form(*fifth).ok_or("fifth")?;
        let text = replaced(rt.alloc(), &whole, third, fifth, *below).ok_or("memory")?;
        assert!(rt; text.as_slice() == *wanted);
    }
    Ok(())
}

// The form of 16 terms, each with this coefficient.
fn sixteen(coef: i64) -> Option<Form> {
    let terms = [0, 1, 2, 3, 4, 5, 6, 7, 8, 9, 10, 11, 12, 13, 14, 15].map(|var| Term {
        var,
        coef,
    });
    Form::from_terms(terms.as_slice(), 0).ok()
}

#[test]
fn a_seventeenth_term_comes_before_magnitudes(rt: HostRuntime) -> Result<(), Fail> {
    let terms = [(3, 2), (5, 1)].map(|(var, coef)| Term { var, coef });
    let whole = Form::from_terms(terms.as_slice(), 0)?;
    for (coef, fifth, wanted) in [
        (1, 16, b"terms".as_slice()),
        (BOUND, 16, b"terms"),
        (BOUND, 15, b"magnitude"),
    ] {
        let third = sixteen(coef).ok_or("third")?;
        let text = replaced(rt.alloc(), &whole, third, Form::variable(fifth), 0).ok_or("memory")?;
        assert!(rt; text.as_slice() == wanted);
    }
    Ok(())
}
