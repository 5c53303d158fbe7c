//! The text of statements and blocks.

ghost use Rattle.std.specs.Prelude.{◌≡◌, ◌++◌, OnOk};
ghost use Rattle.xanadu_tree.specs.Printing.{some_expression_text, statement_text, branch_text, block_text, statements_text, value_text, names_text};

use crate::print::expression::{put_call, put_expression, put_group, put_indices};
use crate::print::list::put_list;
use crate::print::token::{put_lower, put_mark, put_word};
use crate::print::types::put_some_clause;
use crate::tree::{Block, Expression, Identifier, Statement};
use xan_io::Memory;
use xanadu_lexer::{Keyword, Symbol};

#[tactic(auto, using(crate::proofs::StatementTexts::statement_texts))]
fn put_some_expression(out: &mut Vec<u8>, e: &Option<Expression>) -> Result<(), Memory>
    ensures { OnOk result (out.new.items ≡ out.old.items ++ some_expression_text e.now) }
{
    match e {
        None => Ok(()),
        Some(e) => put_expression(out, e),
    }
}

#[cycle(print_statement)]
#[tactic(auto, using(crate::proofs::StatementTexts::statement_texts))]
fn put_statement(out: &mut Vec<u8>, statement: &Statement) -> Result<(), Memory>
    ensures { OnOk result (out.new.items ≡ out.old.items ++ statement_text statement.now) }
{
    match statement {
        Statement::Declare { name, value, .. } => {
            put_word(out, Keyword::Var)?;
            put_lower(out, name)?;
            put_value(out, value)
        }
        Statement::Split { names, value, .. } => {
            put_word(out, Keyword::Let)?;
            put_names(out, names.as_slice())?;
            put_value(out, value)
        }
        Statement::Assign {
            target,
            indices,
            value,
        } => {
            put_lower(out, target)?;
            put_indices(out, indices.as_slice())?;
            put_value(out, value)
        }
        Statement::Call {
            function,
            arguments,
        } => {
            put_lower(out, function)?;
            put_call(out, arguments.as_slice())?;
            put_mark(out, Symbol::Semicolon)
        }
        Statement::Print { value, .. } => {
            put_word(out, Keyword::Print)?;
            put_expression(out, value)?;
            put_mark(out, Symbol::Semicolon)
        }
        Statement::If {
            test,
            on_true,
            on_false,
            join,
            ..
        } => {
            put_word(out, Keyword::If)?;
            put_group(out, test)?;
            put_block(out, on_true)?;
            put_branch(out, on_false)?;
            put_some_clause(out, Keyword::Join, join)
        }
        Statement::While {
            test,
            head,
            body,
            ..
        } => {
            put_word(out, Keyword::While)?;
            put_group(out, test)?;
            put_some_clause(out, Keyword::With, head)?;
            put_block(out, body)
        }
        Statement::Return { value, .. } => {
            put_word(out, Keyword::Return)?;
            put_some_expression(out, value)?;
            put_mark(out, Symbol::Semicolon)
        }
    }
}

/// `else` and its block, or nothing.
#[cycle(print_statement)]
#[tactic(auto, using(crate::proofs::StatementTexts::statement_texts))]
fn put_branch(out: &mut Vec<u8>, block: &Option<Block>) -> Result<(), Memory>
    ensures { OnOk result (out.new.items ≡ out.old.items ++ branch_text block.now) }
{
    match block {
        None => Ok(()),
        Some(block) => {
            put_word(out, Keyword::Else)?;
            put_block(out, block)
        }
    }
}

#[cycle(print_statement)]
#[tactic(auto, using(crate::proofs::StatementTexts::statement_texts))]
pub(super) fn put_block(out: &mut Vec<u8>, block: &Block) -> Result<(), Memory>
    ensures { OnOk result (out.new.items ≡ out.old.items ++ block_text block.now) }
{
    put_mark(out, Symbol::LeftBrace)?;
    put_statements(out, block.statements.as_slice())?;
    put_mark(out, Symbol::RightBrace)
}

#[cycle(print_statement)]
#[tactic(auto, using(crate::proofs::StatementTexts::statement_texts))]
fn put_statements(out: &mut Vec<u8>, statements: &[Statement]) -> Result<(), Memory>
    ensures { OnOk result (out.new.items ≡ out.old.items ++ statements_text statements.now) }
{
    for statement in statements {
        put_statement(out, statement)?;
    }
    Ok(())
}

/// `=`, a value and `;`.
fn put_value(out: &mut Vec<u8>, value: &Expression) -> Result<(), Memory>
    ensures { OnOk result (out.new.items ≡ out.old.items ++ value_text value.now) }
{
    put_mark(out, Symbol::Equal)?;
    put_expression(out, value)?;
    put_mark(out, Symbol::Semicolon)
}

/// Names in parentheses.
fn put_names(out: &mut Vec<u8>, names: &[Identifier]) -> Result<(), Memory>
    ensures { OnOk result (out.new.items ≡ out.old.items ++ names_text names.now) }
{
    put_mark(out, Symbol::LeftParen)?;
    put_list(out, names)?;
    put_mark(out, Symbol::RightParen)
}
