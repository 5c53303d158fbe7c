//! The bounds from both sides, and each call once.
ghost use Rattle.std.specs.Prelude.{◌≡◌, ◌<◌};

use index_sorts::{Context, ContextError};
use std::test::Fail;
use xan_lin::Form;

// Adds the row that says that the variable is at least 0.
fn add_variable(context: &mut Context, var: u32) -> Result<(), ContextError>
    requires { var < context.old.vars }
    ensures { context.new.vars ≡ context.old.vars }
{
    context.add(Form::variable(var))
}

#[test]
fn variables_stop_at_the_bound(rt: HostRuntime) -> Result<(), Fail> {
    assert!(rt; matches!(Context::new(rt.alloc(), 1025), Err(ContextError::Variables)));
    let mut context = Context::new(rt.alloc(), 1000)?;
    let counts = [0, 20, 4, 0, 1];
    let answers = counts.map(|count| context.fresh(count).unwrap_or(9999));
    assert_eq!(rt; answers, [1000, 1000, 1020, 1024, 9999]);
    assert_eq!(rt; context.vars(), 1024);
    assert!(rt; matches!(context.fresh(u32::MAX), Err(ContextError::Variables)));
    Ok(())
}

#[test]
fn known_rows_are_not_listed_again(rt: HostRuntime) -> Result<(), Fail> {
    let mut context = Context::new(rt.alloc(), 2)?;
    assert!(rt; !context.knows(&Form::variable(1)));
    add_variable(&mut context, 1)?;
    add_variable(&mut context, 1)?;
    assert_eq!(rt; context.rows().len(), 1);
    let copied = context.copy()?;
    assert!(rt; copied.knows(&Form::variable(1)));
    let constants = [0, 7, -1].map(|constant| match Form::from_terms(&[], constant) {
        Ok(form) => context.knows(&form),
        Err(_) => false,
    });
    assert_eq!(rt; constants, [true, true, false]);
    Ok(())
}

#[test]
fn rows_stop_at_the_bound(rt: HostRuntime) -> Result<(), Fail> {
    let mut context = Context::new(rt.alloc(), 513)?;
    for var in 0..512 {
        add_variable(&mut context, var)?;
    }
    assert_eq!(rt; context.rows().len(), 512);
    assert!(rt; matches!(add_variable(&mut context, 512), Err(ContextError::Rows)));
    add_variable(&mut context, 511)?;
    Ok(())
}
