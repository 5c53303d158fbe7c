//! Sums, differences and products, and how they are spelled.
use std::test::Fail;
use xan_lin::{BOUND, Form, Term, TooLarge};

#[test]
fn sums_stop_at_the_bounds(rt: HostRuntime) -> Result<(), Fail> {
    let mut sixteen = Form::variable(0);
    for v in 1..16 {
        sixteen = sixteen.add(&Form::variable(v))?;
    }
    assert_eq!(rt; sixteen.terms().len(), 16);
    assert!(rt; matches!(sixteen.add(&Form::variable(16)), Err(TooLarge::Terms)));
    let zero = sixteen.sub(&sixteen.copy())?;
    let minus_one = zero.negated_row()?;
    let one = minus_one.scale(-1)?;
    let bound = one.scale(BOUND)?;
    assert!(rt; matches!(bound.add(&one), Err(TooLarge::Magnitude)));
    assert_eq!(rt; bound.add(&minus_one)?.constant_part(), 4611686018427387902);
    Ok(())
}

#[test]
fn terms_of_any_order(rt: HostRuntime) -> Result<(), Fail> {
    let terms = [
        (5, 2),
        (1, 7),
        (5, i64::MAX),
        (0, 0),
        (5, -i64::MAX),
        (1, -7),
        (2, 3),
    ]
    .map(|(var, coef)| Term { var, coef });
    let form = Form::from_terms(terms.as_slice(), -9)?;
    assert_eq!(rt;
        form.terms(),
        [Term { var: 2, coef: 3 }, Term { var: 5, coef: 2 }].as_slice()
    );
    assert_eq!(rt; form.constant_part(), -9);
    let mut text = Vec::new(rt.alloc());
    form.write_form(&mut text)?;
    assert_eq!(rt; text.as_slice(), b"+3v2+2v5-9".as_slice());
    assert!(rt; matches!(Form::from_terms(&[], i64::MIN), Err(TooLarge::Magnitude)));
    Ok(())
}

#[test]
fn terms_come_together(rt: HostRuntime) -> Result<(), Fail> {
    let left = Form::variable(3).scale(2)?.add(&Form::variable(1))?;
    let right = Form::variable(3).scale(-2)?.sub(&Form::variable(2))?;
    let sum = left.add(&right)?;
    assert_eq!(rt;
        sum.terms(),
        [Term { var: 1, coef: 1 }, Term { var: 2, coef: -1 }].as_slice()
    );
    assert_eq!(rt; left.negated_row()?.constant_part(), -1);
    Ok(())
}
