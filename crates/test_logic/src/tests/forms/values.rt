//! Values of forms, also past 127 bits.
use std::test::Fail;
use xan_lin::{BOUND, Form, Term};

// Whether the row holds, where each of its variables has a value.
fn holds(form: &Form, values: &[i64]) -> Option<bool> {
    let limit = values.len();
    let named = form.terms().iter().all(|term| (term.var as usize) < limit);
    if named {
        Some(form.eval_row(values))
    } else {
        None
    }
}

// Whether the form is the word, where each of its variables has a value.
fn is_word(form: &Form, values: &[i64], word: i64) -> Option<bool> {
    let limit = values.len();
    let named = form.terms().iter().all(|term| (term.var as usize) < limit);
    if named {
        Some(form.eval_is(values, word))
    } else {
        None
    }
}

// The form of 16 terms, each with this coefficient.
fn sixteen(coef: i64, constant: i64) -> Option<Form> {
    let terms = [0, 1, 2, 3, 4, 5, 6, 7, 8, 9, 10, 11, 12, 13, 14, 15].map(|var| Term {
        var,
        coef,
    });
    Form::from_terms(terms.as_slice(), constant).ok()
}

#[test]
fn rows_hold_from_zero_on(rt: HostRuntime) -> Result<(), Fail> {
    let terms = [Term { var: 0, coef: 2 }, Term { var: 1, coef: -3 }];
    let row = Form::from_terms(terms.as_slice(), 1)?;
    let answers = [[1, 1], [1, 2], [0, 0], [-2, -1]].map(|values| holds(&row, values.as_slice()));
    assert_eq!(rt; answers, [Some(true), Some(false), Some(true), Some(true)]);
    assert_eq!(rt; holds(&row, &[1]), None);
    Ok(())
}

#[test]
fn sums_pass_127_bits(rt: HostRuntime) -> Result<(), Fail> {
    let most = sixteen(BOUND, BOUND).ok_or("most")?;
    let least = sixteen(-BOUND, -BOUND).ok_or("least")?;
    let low = [i64::MIN; 16];
    assert_eq!(rt; holds(&most, low.as_slice()), Some(false));
    assert_eq!(rt; holds(&least, low.as_slice()), Some(true));
    let mut even = [i64::MAX; 16];
    even[8..].fill(-i64::MAX);
    let row = sixteen(BOUND, -1).ok_or("row")?;
    assert_eq!(rt; holds(&row, even.as_slice()), Some(false));
    assert_eq!(rt; is_word(&row, even.as_slice(), -1), Some(true));
    assert_eq!(rt; is_word(&most, even.as_slice(), BOUND), Some(true));
    assert_eq!(rt; is_word(&most, low.as_slice(), 0), Some(false));
    Ok(())
}

#[test]
fn words_at_both_ends(rt: HostRuntime) -> Result<(), Fail> {
    let own = Form::variable(0);
    let terms = [Term { var: 0, coef: 1 }];
    let above = Form::from_terms(terms.as_slice(), 1)?;
    let under = Form::from_terms(terms.as_slice(), -1)?;
    assert_eq!(rt; is_word(&own, &[i64::MAX], i64::MAX), Some(true));
    assert_eq!(rt; is_word(&own, &[i64::MIN], i64::MIN), Some(true));
    assert_eq!(rt; is_word(&above, &[i64::MAX], i64::MIN), Some(false));
    assert_eq!(rt; is_word(&under, &[i64::MIN], i64::MAX), Some(false));
    assert_eq!(rt; is_word(&under, &[i64::MIN + 1], i64::MIN), Some(true));
    Ok(())
}
