//! Statements and blocks.

ghost use Rattle.std.specs.Prelude.{◌≡◌, map};
ghost use Rattle.std.specs.Option.{option_map};
ghost use Rattle.xanadu_tree.specs.PlainOf.{plain_test};
ghost use Rattle.xanadu_tree.specs.PlainTreeOf.{plain_block, plain_expression, plain_statement, to_branch, to_statements};
ghost use Rattle.type_shapes.specs.Code.{Gives, Steps};
ghost use Rattle.expression_shapes.specs.Expressions as expressions;
ghost use Rattle.expression_shapes.specs.SitesOf.{globals_of, locals_of};
ghost use Rattle.scope_shapes.specs.StatementsOf.{done_of, body_of};
ghost use Rattle.scope_shapes.specs.Statements as spec;
ghost use Rattle.scope_shapes.specs.Statements.{statement_at};

use crate::clause::clause_or_none;
use crate::simple::{
    Body, Done, and_then, assign, called, choice, declare, empty, printed, returned, split, turns,
};
use expression_shapes::{Globals, Locals, Site, test};
use std::alloc::Global;
use type_shapes::{ShapeError, ShapeKind};
use xanadu_tree::{Block, Expression, Kind, Statement, Test};

/// The test of an `if` or a `while`, which stands here.
fn test_in<'a>(
    alloc: Global,
    globals: &Globals<'a>,
    locals: &Locals<'a>,
    e: &Expression,
) -> Result<Test, ShapeError>
    ensures { Gives plain_test result (expressions.expression_test (globals_of globals.now) (locals_of locals.now) (plain_expression e.now)) }
{
    test(
        e,
        &Site {
            alloc,
            globals,
            locals,
        },
    )
}

/// The place of a statement.
#[tactic(auto, using(xanadu_tree::proofs::TreeEquations::plain_nodes))]
fn place_of_statement(statement: &Statement) -> u32
    ensures { result ≡ statement_at (plain_statement statement.now) }
{
    match statement {
        Statement::Declare { at, .. }
        | Statement::Split { at, .. }
        | Statement::Print { at, .. }
        | Statement::If { at, .. }
        | Statement::While { at, .. }
        | Statement::Return { at, .. } => *at,
        Statement::Assign { target, .. } => target.at,
        Statement::Call { function, .. } => function.at,
    }
}

/// A statement, whose names reach what follows it.
#[cycle(block)]
#[tactic(auto, using(xanadu_tree::proofs::TreeEquations::plain_nodes), unfolding(crate::specs::Statements::statement))]
fn statement<'a>(
    statement: &'a Statement,
    alloc: Global,
    globals: &Globals<'a>,
    given: Kind,
    locals: &mut Locals<'a>,
) -> Result<Done, ShapeError>
    ensures { Steps done_of result (locals_of locals.new) (spec.statement (globals_of globals.now) given (plain_statement statement.now) (locals_of locals.old)) }
{
    match statement {
        Statement::Declare { name, value, .. } => declare(alloc, globals, locals, name, value),
        Statement::Split { names, value, at } => split(alloc, globals, locals, names, value, *at),
        Statement::Assign {
            target,
            indices,
            value,
        } => assign(alloc, globals, locals, target, indices, value),
        Statement::Call {
            function,
            arguments,
        } => called(alloc, globals, locals, function, arguments),
        Statement::Print { value, .. } => printed(alloc, globals, locals, value),
        Statement::If {
            test,
            on_true,
            on_false,
            join,
            at,
        } => {
            let test = test_in(alloc, globals, locals, test)?;
            let yes = block(on_true, alloc, globals, given, locals)?;
            let no = branch(on_false, alloc, globals, given, locals)?;
            let join = clause_or_none(alloc, &globals.types, join, locals)?;
            Ok(choice(test, yes, no, join, *at))
        }
        Statement::While {
            test,
            head,
            body,
            at,
        } => {
            let test = test_in(alloc, globals, locals, test)?;
            let head = clause_or_none(alloc, &globals.types, head, locals)?;
            let body = block(body, alloc, globals, given, locals)?;
            Ok(turns(test, head, body, *at))
        }
        Statement::Return { value, at } => returned(alloc, globals, given, locals, value, *at),
    }
}

/// A branch that is not written has no statement.
#[cycle(block)]
#[tactic(auto, using(xanadu_tree::proofs::TreeEquations::plain_nodes), unfolding(crate::specs::Statements::branch))]
fn branch<'a>(
    written: &'a Option<Block>,
    alloc: Global,
    globals: &Globals<'a>,
    given: Kind,
    locals: &mut Locals<'a>,
) -> Result<Body, ShapeError>
    ensures { Steps body_of result (locals_of locals.new) (spec.branch (globals_of globals.now) given (to_branch (option_map plain_block written.now)) (locals_of locals.old)) }
{
    match written {
        None => Ok(empty(alloc)),
        Some(it) => block(it, alloc, globals, given, locals),
    }
}

/// The names of a block are gone behind it.
#[cycle(block)]
#[tactic(auto, using(xanadu_tree::proofs::TreeEquations::plain_nodes), unfolding(crate::specs::Statements::block))]
pub fn block<'a>(
    written: &'a Block,
    alloc: Global,
    globals: &Globals<'a>,
    given: Kind,
    locals: &mut Locals<'a>,
) -> Result<Body, ShapeError>
    ensures { Steps body_of result (locals_of locals.new) (spec.block (globals_of globals.now) given (plain_block written.now) (locals_of locals.old)) }
{
    let variables = locals.variables.len();
    let indices = locals.indices.len();
    let mut body = empty(alloc);
    statements(
        &written.statements,
        alloc,
        globals,
        given,
        locals,
        &mut body,
    )?;
    locals.leave(variables, indices);
    Ok(body)
}

/// Adds statements in order.
#[cycle(block)]
#[tactic(auto, using(xanadu_tree::proofs::TreeEquations::plain_nodes), unfolding(crate::specs::Statements::statements))]
fn statements<'a>(
    written: &'a [Statement],
    alloc: Global,
    globals: &Globals<'a>,
    given: Kind,
    locals: &mut Locals<'a>,
    body: &mut Body,
) -> Result<(), ShapeError>
    ensures { Gives (λ _. (body_of body.new, locals_of locals.new)) result (spec.statements (globals_of globals.now) given (to_statements (map plain_statement written.now)) (body_of body.old) (locals_of locals.old)) }
{
    for one in written {
        if !body.completes {
            return Err(ShapeError::Fault {
                at: place_of_statement(one),
                kind: ShapeKind::Unreachable,
            });
        }
        let done = statement(one, alloc, globals, given, locals)?;
        and_then(body, done)?;
    }
    Ok(())
}
