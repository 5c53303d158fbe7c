//! The text of declarations.

ghost use Rattle.std.specs.Prelude.{◌≡◌, ◌++◌, OnOk};
ghost use Rattle.xanadu_tree.specs.Printing.{type_body_text, type_declaration_text, result_text, function_text, declaration_text, declarations_text};

use crate::print::index::put_some_quantifier;
use crate::print::list::put_list;
use crate::print::statement::put_block;
use crate::print::token::{put_lower, put_mark, put_upper, put_word};
use crate::print::types::put_type;
use crate::tree::{Declaration, FunctionDeclaration, ResultType, TypeBody, TypeDeclaration};
use xan_io::Memory;
use xanadu_lexer::{Keyword, Symbol};

#[tactic(auto, using(crate::proofs::StatementTexts::statement_texts))]
fn put_type_body(out: &mut Vec<u8>, body: &TypeBody) -> Result<(), Memory>
    ensures { OnOk result (out.new.items ≡ out.old.items ++ type_body_text body.now) }
{
    match body {
        TypeBody::Cell(ty) => put_type(out, ty),
        TypeBody::Tuple(parts) => {
            put_mark(out, Symbol::LeftParen)?;
            put_list(out, parts.as_slice())?;
            put_mark(out, Symbol::RightParen)
        }
    }
}

#[tactic(auto, using(crate::proofs::StatementTexts::statement_texts))]
fn put_type_declaration(out: &mut Vec<u8>, declaration: &TypeDeclaration) -> Result<(), Memory>
    ensures { OnOk result (out.new.items ≡ out.old.items ++ type_declaration_text declaration.now) }
{
    put_word(out, Keyword::Type)?;
    put_upper(out, &declaration.name)?;
    put_mark(out, Symbol::Equal)?;
    put_some_quantifier(out, &declaration.quantifier)?;
    put_type_body(out, &declaration.body)?;
    put_mark(out, Symbol::Semicolon)
}

#[tactic(auto, using(crate::proofs::StatementTexts::statement_texts))]
fn put_result(out: &mut Vec<u8>, result_type: &ResultType) -> Result<(), Memory>
    ensures { OnOk result (out.new.items ≡ out.old.items ++ result_text result_type.now) }
{
    match result_type {
        ResultType::Unit { .. } => put_word(out, Keyword::Unit),
        ResultType::Value { quantifier, ty, .. } => {
            put_some_quantifier(out, quantifier)?;
            put_type(out, ty)
        }
    }
}

#[tactic(auto, using(crate::proofs::StatementTexts::statement_texts))]
fn put_function(out: &mut Vec<u8>, function: &FunctionDeclaration) -> Result<(), Memory>
    ensures { OnOk result (out.new.items ≡ out.old.items ++ function_text function.now) }
{
    put_word(out, Keyword::Fun)?;
    put_lower(out, &function.name)?;
    put_some_quantifier(out, &function.quantifier)?;
    put_mark(out, Symbol::LeftParen)?;
    put_list(out, function.parameters.as_slice())?;
    put_mark(out, Symbol::RightParen)?;
    put_mark(out, Symbol::Colon)?;
    put_result(out, &function.result)?;
    put_block(out, &function.body)
}

#[tactic(auto, using(crate::proofs::StatementTexts::statement_texts))]
fn put_declaration(out: &mut Vec<u8>, declaration: &Declaration) -> Result<(), Memory>
    ensures { OnOk result (out.new.items ≡ out.old.items ++ declaration_text declaration.now) }
{
    match declaration {
        Declaration::Type(declaration) => put_type_declaration(out, declaration),
        Declaration::Function(function) => put_function(out, function),
    }
}

pub(super) fn put_declarations(
    out: &mut Vec<u8>,
    declarations: &[Declaration],
) -> Result<(), Memory>
    ensures { OnOk result (out.new.items ≡ out.old.items ++ declarations_text declarations.now) }
{
    for declaration in declarations {
        put_declaration(out, declaration)?;
    }
    Ok(())
}
