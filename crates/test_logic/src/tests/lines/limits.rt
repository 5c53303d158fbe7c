//! No lines, and 64 variables.
use crate::tests::lines::table::answer;
use crate::tests::systems::add;
use index_sorts::Context;
use proof_lines::{BadLine, Line, Why};
use std::alloc::Global;
use std::test::Fail;
use xan_lin::{BOUND, Form, Term};

// The sum of 16 variables from this one on.
fn sixteen(from: u32) -> Option<Form> {
    let mut terms = [Term::default(); 16];
    for place in 0..16usize {
        terms[place] = Term {
            var: from.checked_add(place as u32)?,
            coef: 1,
        };
    }
    Form::from_terms(terms.as_slice(), 0).ok()
}

// The context of four rows that name 64 variables, and of these rows the lines.
fn of_64_variables(alloc: Global) -> Option<(Context, Vec<Line>)> {
    let mut context = Context::new(alloc, 100).ok()?;
    let mut lines = Vec::new(alloc);
    for block in 0..4u32 {
        add(&mut context, sixteen(16 * block)?)?;
        lines.push(Line::Hyp(sixteen(16 * block)?)).ok()?;
    }
    Some((context, lines))
}

// What the check answers to these lines and one more, for a goal.
fn answer_with(alloc: Global, goal: &Form, last: Line) -> Option<Result<(), BadLine>> {
    let (context, mut lines) = of_64_variables(alloc)?;
    lines.push(last).ok()?;
    answer(alloc, &context, goal, lines.as_slice())
}

// What it answers to the goal of a new variable and the greatest constant.
fn answer_past_the_bound(alloc: Global) -> Option<Result<(), BadLine>> {
    let goal = Form::from_terms(Form::variable(64).terms(), BOUND).ok()?;
    answer_with(alloc, &goal, Line::Goal)
}

const fn bad(at: u32, why: Why) -> Option<Result<(), BadLine>> {
    Some(Err(BadLine { at, why }))
}

#[test]
fn variables_stop_at_64(rt: HostRuntime) -> Result<(), Fail> {
    let known = answer_with(rt.alloc(), &Form::variable(63), Line::Goal);
    assert!(rt; known == bad(5, Why::NotRefuted));
    let new = answer_with(rt.alloc(), &Form::variable(64), Line::Goal);
    assert!(rt; new == bad(4, Why::Variables));
    let foreign = answer_with(
        rt.alloc(),
        &Form::variable(63),
        Line::Hyp(Form::variable(65)),
    );
    assert!(rt; foreign == bad(4, Why::NotInContext));
    Ok(())
}

#[test]
fn large_before_variables(rt: HostRuntime) -> Result<(), Fail> {
    assert!(rt; answer_past_the_bound(rt.alloc()) == bad(4, Why::TooLarge));
    Ok(())
}

#[test]
fn no_lines_prove_nothing(rt: HostRuntime) -> Result<(), Fail> {
    let context = Context::new(rt.alloc(), 1)?;
    let none = answer(rt.alloc(), &context, &Form::variable(0), &[]);
    assert!(rt; none == bad(0, Why::NotRefuted));
    let goal = answer(rt.alloc(), &context, &Form::variable(0), &[Line::Goal]);
    assert!(rt; goal == bad(1, Why::NotRefuted));
    Ok(())
}
