//! The limits, from both sides.
use crate::tests::solver::run::run_of;
use crate::tests::systems::add;
use index_sorts::Context;
use linear_solver::Answer;
use std::alloc::Global;
use std::test::Fail;
use xan_lin::{Form, LimitKind, Term};

// The form of a few terms, without a constant.
fn form(terms: &[Term]) -> Option<Form> {
    Form::from_terms(terms, 0).ok()
}

// The context of v0 >= v1, v1 >= v2 and so on, with so many variables.
fn chain(alloc: Global, vars: u32) -> Option<Context> {
    let mut context = Context::new(alloc, vars).ok()?;
    for var in 1..vars {
        add(&mut context, difference(var - 1, var)?)?;
    }
    Some(context)
}

// The row that one variable is at least another.
fn difference(above: u32, below: u32) -> Option<Form> {
    form(&[
        Term {
            var: above,
            coef: 1,
        },
        Term {
            var: below,
            coef: -1,
        },
    ])
}

// The answer to the goal that the first of so many variables in a chain is at least the last.
fn chain_answer(alloc: Global, vars: u32) -> Option<Answer> {
    if vars == 0 {
        return None;
    }
    let context = chain(alloc, vars)?;
    let shown = run_of(alloc, &context, &difference(0, vars - 1)?, b"")?;
    if shown.answer == Answer::Proved && !shown.accepted {
        return None;
    }
    Some(shown.answer)
}

#[test]
fn variables_of_the_cone(rt: HostRuntime) -> Result<(), Fail> {
    let answers = [2, 63, 64, 65, 100].map(|vars| chain_answer(rt.alloc(), vars));
    let cone = Some(Answer::Limit(LimitKind::Cone));
    let proved = Some(Answer::Proved);
    assert!(rt; answers == [proved, proved, proved, cone, cone]);
    Ok(())
}

// The row of k: v0 + k v1 - k³ v2, or its opposite.
fn curve(k: i64, by: i64) -> Option<Form> {
    let cube = k.checked_mul(k)?.checked_mul(k)?;
    form(&[
        Term { var: 0, coef: by },
        Term {
            var: 1,
            coef: k.checked_mul(by)?,
        },
        Term {
            var: 2,
            coef: cube.checked_mul(by)?.checked_neg()?,
        },
    ])
}

// The answer to the goal that v0 is at least 0, over so many rows of each sign.
fn curve_answer(alloc: Global, positive: i64, negative: i64) -> Option<Answer> {
    let mut context = Context::new(alloc, 3).ok()?;
    for k in 1..=positive {
        add(&mut context, curve(k, 1)?)?;
    }
    for k in 1..=negative {
        add(&mut context, curve(k, -1)?)?;
    }
    let shown = run_of(alloc, &context, &Form::variable(0), b"")?;
    Some(shown.answer)
}

#[test]
fn rows_of_a_system(rt: HostRuntime) -> Result<(), Fail> {
    assert!(rt; curve_answer(rt.alloc(), 256, 255) == Some(Answer::Limit(LimitKind::System)));
    Ok(())
}

// About a million pairs: 45 rows of each sign leave 990 of each sign at most, which have the coefficients of two rows in all. All rows
// together say that the three variables are 0, so that v0 is at least 0.
#[test]
fn a_million_pairs(rt: HostRuntime) -> Result<(), Fail> {
    assert!(rt; curve_answer(rt.alloc(), 45, 45) == Some(Answer::Proved));
    Ok(())
}
