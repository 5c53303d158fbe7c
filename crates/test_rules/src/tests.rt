//! Each call that may lack memory once where it does not.

ghost use Rattle.std.specs.Prelude.{IfSome};
ghost use Rattle.operation_rules.specs.Settings.{IsFew};

use index_sorts::Context;
use operation_rules::{Operation, Rule, Setting, apply, needs_of, rule_of, side_of, side_rows};
use state_types::{Signature, Ty, TypeTable};
use std::alloc::Global;
use std::test::Fail;
use xan_lin::{Form, TooLarge};
use xan_seq::Seq;

// The spelling of the rows, each with a semicolon behind it; a row past the bounds is a star.
fn spelled(alloc: Global, rows: &[Result<Form, TooLarge>]) -> Option<Vec<u8>> {
    let mut text = Vec::new(alloc);
    for row in rows {
        match row {
            Ok(form) => form.write_form(&mut text).ok()?,
            Err(_) => text.push(b'*').ok()?,
        }
        text.push(b';').ok()?;
    }
    Some(text)
}

// The rows of a side of a comparison between v0 and v1.
fn rows_of(alloc: Global, side: bool, comparison: u32) -> Option<Vec<u8>> {
    let rows = side_of(
        alloc,
        side,
        comparison,
        &Form::variable(0),
        &Form::variable(1),
    )
    .ok()?;
    spelled(alloc, rows.as_slice())
}

// A function without parameters whose result is the number 0.
pub(crate) fn plain_signature(alloc: Global) -> Option<Signature>
    ensures few { IfSome result IsFew }
{
    let nothing = Form::from_terms(&[], 0).ok()?;
    Some(Signature {
        vars: 0,
        rows: Seq::from_vec(Vec::new(alloc)),
        params: Seq::from_vec(Vec::new(alloc)),
        result_vars: 0,
        result_rows: Seq::from_vec(Vec::new(alloc)),
        result: Ty::Int(nothing),
    })
}

// The rule of an operation on v0 and v1, applied to a context of two variables: how many demanded rows and given types there are, and how
// many variables the context has then.
fn counted(alloc: Global, op: &Operation) -> Option<(usize, usize, u32)> {
    let table = TypeTable::new(alloc).ok()?;
    let own = plain_signature(alloc)?;
    let st = Setting {
        table: &table,
        sigs: &[],
        own: &own,
    };
    let types = [Ty::Int(Form::variable(0)), Ty::Int(Form::variable(1))];
    let rule = rule_of(alloc, &st, op, types.as_slice(), 2).ok()?;
    Some((
        rule.demands.as_slice().len(),
        rule.given.as_slice().len(),
        rule.fresh,
    ))
}

#[test]
fn sides_are_as_by_hand(rt: HostRuntime) -> Result<(), Fail> {
    let alloc = rt.alloc();
    let less = rows_of(alloc, true, 0).ok_or("memory")?;
    let not_less = rows_of(alloc, false, 0).ok_or("memory")?;
    let equal = rows_of(alloc, true, 2).ok_or("memory")?;
    assert!(rt; less.as_slice() == b"-1v0+1v1-1;".as_slice());
    assert!(rt; not_less.as_slice() == b"+1v0-1v1+0;".as_slice());
    assert!(rt; equal.as_slice() == b"+1v0-1v1+0;-1v0+1v1+0;".as_slice());
    let types = [Ty::Int(Form::variable(0)), Ty::Int(Form::variable(1))];
    let rows = side_rows(alloc, true, &Operation::Branch(1), types.as_slice())?;
    let at_most = spelled(alloc, rows.as_slice()).ok_or("memory")?;
    assert!(rt; at_most.as_slice() == b"-1v0+1v1+0;".as_slice());
    Ok(())
}

#[test]
fn rules_are_as_by_hand(rt: HostRuntime) -> Result<(), Fail> {
    let alloc = rt.alloc();
    let needs = needs_of(&Operation::Add);
    assert!(rt; needs.reads == Some(2) && needs.writes == 1);
    assert!(rt; counted(alloc, &Operation::Add) == Some((0, 1, 0)));
    assert!(rt; counted(alloc, &Operation::Mul) == Some((0, 1, 1)));
    Ok(())
}

#[test]
fn rules_are_applied(rt: HostRuntime) -> Result<(), Fail> {
    let alloc = rt.alloc();
    let mut given = Vec::new(alloc);
    given.push(Ok(Ty::Int(Form::variable(1))))?;
    let rule = Rule {
        demands: Seq::from_vec(Vec::new(alloc)),
        fresh: 1,
        assumed: Seq::from_vec(Vec::new(alloc)),
        given: Seq::from_vec(given),
    };
    let mut ctx = Context::new(alloc, 1).map_err(|_| "context")?;
    let outcome = apply(alloc, rule, &mut ctx).map_err(|_| "rule")?;
    assert!(rt; outcome.types.as_slice().len() == 1 && ctx.vars() == 2);
    Ok(())
}
