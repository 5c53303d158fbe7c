//! Declarations of types and functions.

ghost use Rattle.std.specs.Prelude.{map};
ghost use Rattle.xanadu_tree.specs.PlainTreeOf.{plain_type_body, plain_type_declaration, plain_result, plain_function, plain_declaration};
ghost use Rattle.expression_parser.specs.Code.{Reads};
ghost use Rattle.xanadu_parser.specs.Declarations as spec;

use crate::statements::block;
use expression_parser::{
    Stop, Tokens, parameters, push_read, quantified, quantifier, type_at, types, written_type,
};
use std::alloc::Global;
use xanadu_lexer::{Keyword, Symbol};
use xanadu_tree::{Declaration, FunctionDeclaration, ResultType, TypeBody, TypeDeclaration};

/// The parts of a tuple type in parentheses, or a cell type.
#[tactic(auto, unfolding(crate::specs::Declarations::type_body))]
fn type_body(alloc: Global, tokens: &mut Tokens<'_>) -> Result<TypeBody, Stop>
    ensures { Reads plain_type_body result tokens.new (spec.type_body tokens.old) }
{
    if tokens.eat_symbol(Symbol::LeftParen).is_none() {
        return Ok(TypeBody::Cell(written_type(alloc, tokens)?));
    }
    let parts = types(alloc, tokens)?;
    tokens.symbol(Symbol::RightParen)?;
    Ok(TypeBody::Tuple(parts))
}

/// What is behind `type`.
#[tactic(auto, unfolding(crate::specs::Declarations::type_declaration))]
fn type_declaration(
    alloc: Global,
    tokens: &mut Tokens<'_>,
    at: u32,
) -> Result<TypeDeclaration, Stop>
    ensures { Reads plain_type_declaration result tokens.new (spec.type_declaration at tokens.old) }
{
    let name = tokens.upper()?;
    tokens.symbol(Symbol::Equal)?;
    let quantifier = match quantifier(alloc, tokens) {
        Ok(quantifier) => quantifier,
        Err(stop) => return Err(stop.behind(name)),
    };
    let body = match type_body(alloc, tokens) {
        Ok(body) => body,
        Err(stop) => return Err(stop.behind(quantifier).behind(name)),
    };
    if let Err(stop) = tokens.symbol(Symbol::Semicolon) {
        return Err(stop.behind(body).behind(quantifier).behind(name));
    }
    Ok(TypeDeclaration {
        name,
        quantifier,
        body,
        at,
    })
}

/// A type, with a quantifier before it or none.
#[tactic(auto, unfolding(crate::specs::Declarations::value_type))]
fn value_type(alloc: Global, tokens: &mut Tokens<'_>) -> Result<ResultType, Stop>
    ensures { Reads plain_result result tokens.new (spec.value_type tokens.old) }
{
    if let Some(at) = tokens.eat_symbol(Symbol::LeftBrace) {
        let quantifier = quantified(alloc, tokens, at)?;
        let ty = match written_type(alloc, tokens) {
            Ok(ty) => ty,
            Err(stop) => return Err(stop.behind(quantifier)),
        };
        return Ok(ResultType::Value {
            quantifier: Some(quantifier),
            ty,
            at,
        });
    }
    let ty = written_type(alloc, tokens)?;
    let at = type_at(&ty);
    Ok(ResultType::Value {
        quantifier: None,
        ty,
        at,
    })
}

/// What a function gives.
#[tactic(auto, unfolding(crate::specs::Declarations::result_type))]
fn result_type(alloc: Global, tokens: &mut Tokens<'_>) -> Result<ResultType, Stop>
    ensures { Reads plain_result result tokens.new (spec.result_type tokens.old) }
{
    if let Some(at) = tokens.eat_keyword(Keyword::Unit) {
        return Ok(ResultType::Unit { at });
    }
    value_type(alloc, tokens)
}

/// What is behind `fun`.
#[tactic(auto, unfolding(crate::specs::Declarations::function_declaration))]
fn function_declaration(
    alloc: Global,
    tokens: &mut Tokens<'_>,
    room: usize,
    at: u32,
) -> Result<FunctionDeclaration, Stop>
    ensures { Reads plain_function result tokens.new (spec.function_declaration room at tokens.old) }
{
    let name = tokens.lower()?;
    let quantifier = match quantifier(alloc, tokens) {
        Ok(quantifier) => quantifier,
        Err(stop) => return Err(stop.behind(name)),
    };
    let parameters = match parameters(alloc, tokens) {
        Ok(parameters) => parameters,
        Err(stop) => return Err(stop.behind(quantifier).behind(name)),
    };
    if let Err(stop) = tokens.symbol(Symbol::Colon) {
        return Err(stop.behind(parameters).behind(quantifier).behind(name));
    }
    let result = match result_type(alloc, tokens) {
        Ok(result) => result,
        Err(stop) => return Err(stop.behind(parameters).behind(quantifier).behind(name)),
    };
    let body = match block(alloc, tokens, room) {
        Ok(body) => body,
        Err(stop) => return Err(
            stop.behind(result)
                .behind(parameters)
                .behind(quantifier)
                .behind(name),
        ),
    };
    Ok(FunctionDeclaration {
        name,
        quantifier,
        parameters,
        result,
        body,
        at,
    })
}

#[tactic(auto, unfolding(crate::specs::Declarations::declaration))]
fn declaration(alloc: Global, tokens: &mut Tokens<'_>, room: usize) -> Result<Declaration, Stop>
    ensures { Reads plain_declaration result tokens.new (spec.declaration room tokens.old) }
{
    if let Some(at) = tokens.eat_keyword(Keyword::Type) {
        return Ok(Declaration::Type(type_declaration(alloc, tokens, at)?));
    }
    let at = tokens.keyword(Keyword::Fun)?;
    Ok(Declaration::Function(function_declaration(alloc, tokens, room, at)?))
}

/// Declarations up to the end of the tokens.
#[tactic(auto, unfolding(crate::specs::Declarations::declarations))]
pub fn declarations(
    alloc: Global,
    tokens: &mut Tokens<'_>,
    room: usize,
) -> Result<Vec<Declaration>, Stop>
    ensures { Reads (λ x. map plain_declaration x.items) result tokens.new (spec.declarations room tokens.old) }
{
    let mut found = Vec::new(alloc);
    for _turn in 0..tokens.left() {
        if tokens.left() == 0 {
            return Ok(found);
        }
        push_read(&mut found, declaration(alloc, tokens, room))?;
    }
    Ok(found)
}
