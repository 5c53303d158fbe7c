//! Systems of hypotheses.

use index_sorts::Context;
use std::alloc::Global;
use xan_lin::{Form, Term};

/// The hypotheses v0 >= v1, v1 >= v2 and so on, over so many variables.
pub fn chain(alloc: Global, vars: u32) -> Option<Context> {
    let mut context = Context::new(alloc, vars).ok()?;
    for var in 1..vars {
        add(&mut context, difference(var.saturating_sub(1), var)?)?;
    }
    Some(context)
}

/// The row that one variable is at least another.
pub fn difference(above: u32, below: u32) -> Option<Form> {
    let terms = [
        Term {
            var: above,
            coef: 1,
        },
        Term {
            var: below,
            coef: -1,
        },
    ];
    Form::from_terms(&terms, 0).ok()
}

/// For k from 1 on so many times the rows v0 + k v1 - k³ v2 and their opposites: together they say that the three variables are 0.
pub fn curve(alloc: Global, rows: u32) -> Option<Context> {
    let mut context = Context::new(alloc, 3).ok()?;
    for k in 0..rows {
        add(&mut context, point(i64::from(k), 1)?)?;
    }
    for k in 0..rows {
        add(&mut context, point(i64::from(k), -1)?)?;
    }
    Some(context)
}

/// The row of a number, or its opposite.
fn point(before: i64, by: i64) -> Option<Form> {
    let k = before.checked_add(1)?;
    let cube = k.checked_mul(k)?.checked_mul(k)?;
    let terms = [
        Term { var: 0, coef: by },
        Term {
            var: 1,
            coef: k.checked_mul(by)?,
        },
        Term {
            var: 2,
            coef: cube.checked_mul(by)?.checked_neg()?,
        },
    ];
    Form::from_terms(&terms, 0).ok()
}

/// Adds a row that names only variables of the context.
pub fn add(context: &mut Context, row: Form) -> Option<()> {
    let vars = context.vars();
    if row.terms().iter().all(|term| term.var < vars) {
        context.add(row).ok()
    } else {
        None
    }
}
