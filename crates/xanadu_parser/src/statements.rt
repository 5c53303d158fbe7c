//! Statements and blocks.

ghost use Rattle.std.specs.Prelude.{map};
ghost use Rattle.std.specs.Option.{option_map};
ghost use Rattle.xanadu_tree.specs.PlainTreeOf.{plain_expression, plain_statement, plain_block};
ghost use Rattle.expression_parser.specs.Code.{Reads};
ghost use Rattle.xanadu_parser.specs.Statements as spec;

use expression_parser::{
    Stop, Tokens, arguments, clause_behind, expression, indices, push_read, separated,
};
use std::alloc::Global;
use xanadu_lexer::{Keyword, Symbol};
use xanadu_tree::{Block, Expression, Identifier, Statement};

/// An expression and the `;` behind it.
#[tactic(auto, unfolding(crate::specs::Statements::ended))]
fn ended(alloc: Global, tokens: &mut Tokens<'_>, room: usize) -> Result<Expression, Stop>
    ensures { Reads plain_expression result tokens.new (spec.ended room tokens.old) }
{
    let value = expression(alloc, tokens, room)?;
    match tokens.symbol(Symbol::Semicolon) {
        Ok(_) => Ok(value),
        Err(stop) => Err(stop.behind(value)),
    }
}

/// An expression in parentheses.
#[tactic(auto, unfolding(crate::specs::Statements::condition))]
fn test(alloc: Global, tokens: &mut Tokens<'_>, room: usize) -> Result<Expression, Stop>
    ensures { Reads plain_expression result tokens.new (spec.condition room tokens.old) }
{
    tokens.symbol(Symbol::LeftParen)?;
    let test = expression(alloc, tokens, room)?;
    match tokens.symbol(Symbol::RightParen) {
        Ok(_) => Ok(test),
        Err(stop) => Err(stop.behind(test)),
    }
}

/// What is behind `var`.
#[tactic(auto, using(xanadu_tree::proofs::TreeEquations::made_nodes), unfolding(crate::specs::Statements::declared))]
fn declared(alloc: Global, tokens: &mut Tokens<'_>, room: usize, at: u32) -> Result<Statement, Stop>
    ensures { Reads plain_statement result tokens.new (spec.declared room at tokens.old) }
{
    let name = tokens.lower()?;
    tokens.symbol(Symbol::Equal)?;
    let value = ended(alloc, tokens, room)?;
    Ok(Statement::Declare { name, value, at })
}

/// Names with commas between them, at least one.
#[tactic(auto, unfolding(crate::specs::Statements::names))]
fn names(alloc: Global, tokens: &mut Tokens<'_>) -> Result<Vec<Identifier>, Stop>
    ensures { Reads (λ x. x.items) result tokens.new (spec.names tokens.old) }
{
    separated(alloc, tokens)
}

/// What is behind `let`.
#[tactic(auto, using(xanadu_tree::proofs::TreeEquations::made_nodes), unfolding(crate::specs::Statements::split))]
fn split(alloc: Global, tokens: &mut Tokens<'_>, room: usize, at: u32) -> Result<Statement, Stop>
    ensures { Reads plain_statement result tokens.new (spec.split room at tokens.old) }
{
    tokens.symbol(Symbol::LeftParen)?;
    let names = names(alloc, tokens)?;
    tokens.symbol(Symbol::RightParen)?;
    tokens.symbol(Symbol::Equal)?;
    let value = ended(alloc, tokens, room)?;
    Ok(Statement::Split { names, value, at })
}

/// What is behind `return`.
#[tactic(auto, using(xanadu_tree::proofs::TreeEquations::made_nodes), unfolding(crate::specs::Statements::returned))]
fn returned(alloc: Global, tokens: &mut Tokens<'_>, room: usize, at: u32) -> Result<Statement, Stop>
    ensures { Reads plain_statement result tokens.new (spec.returned room at tokens.old) }
{
    if let Some(_) = tokens.eat_symbol(Symbol::Semicolon) {
        return Ok(Statement::Return { value: None, at });
    }
    let value = ended(alloc, tokens, room)?;
    Ok(Statement::Return {
        value: Some(value),
        at,
    })
}

/// What is behind the function's name of a call.
#[tactic(auto, using(xanadu_tree::proofs::TreeEquations::made_nodes), unfolding(crate::specs::Statements::called))]
fn called(
    alloc: Global,
    tokens: &mut Tokens<'_>,
    room: usize,
    function: Identifier,
) -> Result<Statement, Stop>
    ensures { Reads plain_statement result tokens.new (spec.called room function tokens.old) }
{
    let arguments = arguments(alloc, tokens, room)?;
    tokens.symbol(Symbol::Semicolon)?;
    Ok(Statement::Call {
        function,
        arguments,
    })
}

/// What is behind the variable's name of an assignment.
#[tactic(auto, using(xanadu_tree::proofs::TreeEquations::made_nodes), unfolding(crate::specs::Statements::assigned))]
fn assigned(
    alloc: Global,
    tokens: &mut Tokens<'_>,
    room: usize,
    target: Identifier,
) -> Result<Statement, Stop>
    ensures { Reads plain_statement result tokens.new (spec.assigned room target tokens.old) }
{
    let indices = indices(alloc, tokens, room)?;
    tokens.symbol(Symbol::Equal)?;
    let value = ended(alloc, tokens, room)?;
    Ok(Statement::Assign {
        target,
        indices,
        value,
    })
}

/// An assignment or a call.
#[tactic(auto, using(xanadu_tree::proofs::TreeEquations::made_nodes), unfolding(crate::specs::Statements::named))]
fn named(alloc: Global, tokens: &mut Tokens<'_>, room: usize) -> Result<Statement, Stop>
    ensures { Reads plain_statement result tokens.new (spec.named room tokens.old) }
{
    let name = tokens.lower()?;
    match tokens.eat_symbol(Symbol::LeftParen) {
        Some(_) => called(alloc, tokens, room, name),
        None => assigned(alloc, tokens, room, name),
    }
}

/// A statement in which no block stands.
#[tactic(auto, using(xanadu_tree::proofs::TreeEquations::made_nodes), unfolding(crate::specs::Statements::simple))]
fn simple(alloc: Global, tokens: &mut Tokens<'_>, room: usize) -> Result<Statement, Stop>
    ensures { Reads plain_statement result tokens.new (spec.simple room tokens.old) }
{
    if let Some(at) = tokens.eat_keyword(Keyword::Var) {
        return declared(alloc, tokens, room, at);
    }
    if let Some(at) = tokens.eat_keyword(Keyword::Let) {
        return split(alloc, tokens, room, at);
    }
    if let Some(at) = tokens.eat_keyword(Keyword::Print) {
        let value = ended(alloc, tokens, room)?;
        return Ok(Statement::Print { value, at });
    }
    if let Some(at) = tokens.eat_keyword(Keyword::Return) {
        return returned(alloc, tokens, room, at);
    }
    named(alloc, tokens, room)
}

/// What is behind `if`.
#[cycle(block)]
#[tactic(auto, using(xanadu_tree::proofs::TreeEquations::made_nodes), unfolding(crate::specs::Statements::branches))]
fn branches(alloc: Global, tokens: &mut Tokens<'_>, room: usize, at: u32) -> Result<Statement, Stop>
    ensures { Reads plain_statement result tokens.new (spec.branches room (spec.block room) at tokens.old) }
{
    let test = test(alloc, tokens, room)?;
    let on_true = match block(alloc, tokens, room) {
        Ok(on_true) => on_true,
        Err(stop) => return Err(stop.behind(test)),
    };
    let on_false = match otherwise(alloc, tokens, room) {
        Ok(on_false) => on_false,
        Err(stop) => return Err(stop.behind(on_true).behind(test)),
    };
    let join = match clause_behind(alloc, tokens, Keyword::Join) {
        Ok(join) => join,
        Err(stop) => return Err(stop.behind(on_false).behind(on_true).behind(test)),
    };
    Ok(Statement::If {
        test,
        on_true,
        on_false,
        join,
        at,
    })
}

/// `else` and its block, or nothing.
#[cycle(block)]
#[tactic(auto, unfolding(crate::specs::Statements::otherwise))]
fn otherwise(alloc: Global, tokens: &mut Tokens<'_>, room: usize) -> Result<Option<Block>, Stop>
    ensures { Reads (option_map plain_block) result tokens.new (spec.otherwise room (spec.block room) tokens.old) }
{
    match tokens.eat_keyword(Keyword::Else) {
        Some(_) => Ok(Some(block(alloc, tokens, room)?)),
        None => Ok(None),
    }
}

/// What is behind `while`.
#[cycle(block)]
#[tactic(auto, using(xanadu_tree::proofs::TreeEquations::made_nodes), unfolding(crate::specs::Statements::repeated_block))]
fn repeated(alloc: Global, tokens: &mut Tokens<'_>, room: usize, at: u32) -> Result<Statement, Stop>
    ensures { Reads plain_statement result tokens.new (spec.repeated_block room (spec.block room) at tokens.old) }
{
    let test = test(alloc, tokens, room)?;
    let head = match clause_behind(alloc, tokens, Keyword::With) {
        Ok(head) => head,
        Err(stop) => return Err(stop.behind(test)),
    };
    let body = match block(alloc, tokens, room) {
        Ok(body) => body,
        Err(stop) => return Err(stop.behind(head).behind(test)),
    };
    Ok(Statement::While {
        test,
        head,
        body,
        at,
    })
}

#[cycle(block)]
#[tactic(auto, using(xanadu_tree::proofs::TreeEquations::made_nodes), unfolding(crate::specs::Statements::statement))]
fn statement(alloc: Global, tokens: &mut Tokens<'_>, room: usize) -> Result<Statement, Stop>
    ensures { Reads plain_statement result tokens.new (spec.statement room (spec.block room) tokens.old) }
{
    if let Some(at) = tokens.eat_keyword(Keyword::If) {
        return branches(alloc, tokens, room, at);
    }
    if let Some(at) = tokens.eat_keyword(Keyword::While) {
        return repeated(alloc, tokens, room, at);
    }
    simple(alloc, tokens, room)
}

/// Statements up to a `}`.
#[cycle(block)]
#[tactic(auto, unfolding(crate::specs::Statements::statements))]
fn statements(alloc: Global, tokens: &mut Tokens<'_>, room: usize) -> Result<Vec<Statement>, Stop>
    ensures { Reads (λ x. map plain_statement x.items) result tokens.new (spec.statements room (spec.block room) tokens.old) }
{
    let mut found = Vec::new(alloc);
    for _turn in 0..tokens.left() {
        if let Some(_) = tokens.eat_symbol(Symbol::RightBrace) {
            return Ok(found);
        }
        push_read(&mut found, statement(alloc, tokens, room))?;
    }
    Err(tokens.fault())
}

/// A block, in which others nest fewer than `room` times. A fault is told at the first token of one that nests deeper: the number of tokens,
/// which no nesting passes, is room enough.
#[cycle(block)]
#[tactic(auto, using(xanadu_tree::proofs::TreeEquations::made_nodes), unfolding(crate::specs::Statements::block))]
pub fn block(alloc: Global, tokens: &mut Tokens<'_>, room: usize) -> Result<Block, Stop>
    ensures { Reads plain_block result tokens.new (spec.block room tokens.old) }
{
    if room == 0 {
        return Err(tokens.fault());
    }
    let at = tokens.symbol(Symbol::LeftBrace)?;
    let statements = statements(alloc, tokens, room - 1)?;
    Ok(Block { statements, at })
}
