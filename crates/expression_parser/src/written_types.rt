//! Types, parameters and clauses.

ghost use Rattle.std.specs.Prelude.{◌≡◌, map};
ghost use Rattle.std.specs.Option.{option_map};
ghost use Rattle.xanadu_tree.specs.PlainTreeOf.{plain_index, plain_type, plain_parameter, plain_clause};
ghost use Rattle.xanadu_tree.specs.Written.{type_at, element_at};
ghost use Rattle.xanadu_tree.specs.PlainTree as plain;
ghost use Rattle.xan_read.specs.Combinators.{made};
ghost use Rattle.expression_parser.specs.Code.{Reads};
ghost use Rattle.expression_parser.specs.Types as spec;

use crate::index::{index_expression, quantified};
use crate::lists::{Item, separated};
use crate::stop::Stop;
use crate::tokens::Tokens;
use std::alloc::Global;
use xanadu_lexer::{Keyword, Symbol};
use xanadu_tree::{Element, IndexExpression, Parameter, Type, WrittenClause};

/// `int`, `bool` or the name of a declared type.
#[tactic(auto, unfolding(crate::specs::Types::element))]
pub fn element(tokens: &mut Tokens<'_>) -> Result<Element, Stop>
    ensures { Reads (λ x. x) result tokens.new (spec.element tokens.old) }
{
    if let Some(at) = tokens.eat_keyword(Keyword::Int) {
        return Ok(Element::Int(at));
    }
    if let Some(at) = tokens.eat_keyword(Keyword::Bool) {
        return Ok(Element::Bool(at));
    }
    Ok(Element::Named(tokens.upper()?))
}

/// Where an array's type begins.
fn element_at(element: &Element) -> u32
    ensures { result ≡ element_at element.now }
{
    match element {
        Element::Int(at) | Element::Bool(at) => *at,
        Element::Named(name) => name.at,
    }
}

/// What is behind the `[` of an array's type: its length, if it is written, and the `]`.
#[tactic(auto, unfolding(crate::specs::Types::length_of))]
fn length(alloc: Global, tokens: &mut Tokens<'_>) -> Result<Option<IndexExpression>, Stop>
    ensures { Reads (option_map plain_index) result tokens.new (spec.length_of tokens.old) }
{
    if tokens.eat_symbol(Symbol::RightBracket).is_some() {
        return Ok(None);
    }
    let length = index_expression(alloc, tokens)?;
    match tokens.symbol(Symbol::RightBracket) {
        Ok(_) => Ok(Some(length)),
        Err(stop) => Err(stop.behind(length)),
    }
}

/// What is behind an `int` that no `[` follows: its index in parentheses, or nothing.
#[tactic(auto, unfolding(crate::specs::Types::number_type))]
fn number_type(alloc: Global, tokens: &mut Tokens<'_>, at: u32) -> Result<Type, Stop>
    ensures { Reads plain_type result tokens.new (spec.number_type at tokens.old) }
{
    if tokens.eat_symbol(Symbol::LeftParen).is_none() {
        return Ok(Type::Int(at));
    }
    let index = index_expression(alloc, tokens)?;
    match tokens.symbol(Symbol::RightParen) {
        Ok(_) => Ok(Type::IntOf(index, at)),
        Err(stop) => Err(stop.behind(index)),
    }
}

/// The type of an array of such elements, whose `[` is read.
fn array_of(alloc: Global, tokens: &mut Tokens<'_>, element: Element) -> Result<Type, Stop>
    ensures { Reads plain_type result tokens.new (made (plain.Array element) spec.length_of tokens.old) }
{
    match length(alloc, tokens) {
        Ok(length) => Ok(Type::Array(element, length)),
        Err(stop) => Err(stop.behind(element)),
    }
}

/// The type that begins with this element, where no `[` follows.
fn alone(alloc: Global, tokens: &mut Tokens<'_>, element: Element) -> Result<Type, Stop>
    ensures { Reads plain_type result tokens.new (spec.alone element tokens.old) }
{
    match element {
        Element::Int(at) => number_type(alloc, tokens, at),
        Element::Bool(at) => Ok(Type::Bool(at)),
        Element::Named(name) => Ok(Type::Named(name)),
    }
}

/// A type.
#[tactic(auto, unfolding(crate::specs::Types::written_type))]
pub fn written_type(alloc: Global, tokens: &mut Tokens<'_>) -> Result<Type, Stop>
    ensures { Reads plain_type result tokens.new (spec.written_type tokens.old) }
{
    let element = element(tokens)?;
    match tokens.eat_symbol(Symbol::LeftBracket) {
        Some(_) => array_of(alloc, tokens, element),
        None => alone(alloc, tokens, element),
    }
}

/// Where a type begins.
pub fn type_at(ty: &Type) -> u32
    ensures { result ≡ type_at (plain_type ty.now) }
{
    match ty {
        Type::Int(at) | Type::IntOf(_, at) | Type::Bool(at) => *at,
        Type::Named(name) => name.at,
        Type::Array(element, _) => element_at(element),
    }
}

impl Item for Type {
    ghost Plain = { plain.WrittenType };

    ghost view = { plain_type };

    ghost reader = { spec.written_type };

    fn read(alloc: Global, tokens: &mut Tokens<'_>) -> Result<Type, Stop> {
        written_type(alloc, tokens)
    }
}

/// Types with commas between them, at least one.
#[tactic(auto, unfolding(crate::specs::Types::types))]
pub fn types(alloc: Global, tokens: &mut Tokens<'_>) -> Result<Vec<Type>, Stop>
    ensures { Reads (λ x. map plain_type x.items) result tokens.new (spec.types tokens.old) }
{
    separated(alloc, tokens)
}

/// A variable, `:` and its type.
#[tactic(auto, unfolding(crate::specs::Types::parameter))]
fn parameter(alloc: Global, tokens: &mut Tokens<'_>) -> Result<Parameter, Stop>
    ensures { Reads plain_parameter result tokens.new (spec.parameter tokens.old) }
{
    let name = tokens.lower()?;
    tokens.symbol(Symbol::Colon)?;
    let ty = written_type(alloc, tokens)?;
    Ok(Parameter { name, ty })
}

/// Parameters with commas between them, at least one, and the `)` behind them.
#[tactic(auto, unfolding(crate::specs::Types::some_parameters))]
fn some_parameters(alloc: Global, tokens: &mut Tokens<'_>) -> Result<Vec<Parameter>, Stop>
    ensures { Reads (λ x. map plain_parameter x.items) result tokens.new (spec.some_parameters tokens.old) }
{
    let found = listed_parameters(alloc, tokens)?;
    match tokens.symbol(Symbol::RightParen) {
        Ok(_) => Ok(found),
        Err(stop) => Err(stop.behind(found)),
    }
}

impl Item for Parameter {
    ghost Plain = { plain.Parameter };

    ghost view = { plain_parameter };

    ghost reader = { spec.parameter };

    fn read(alloc: Global, tokens: &mut Tokens<'_>) -> Result<Parameter, Stop> {
        parameter(alloc, tokens)
    }
}

/// Parameters with commas between them, at least one.
#[tactic(auto, unfolding(crate::specs::Types::listed_parameters))]
fn listed_parameters(alloc: Global, tokens: &mut Tokens<'_>) -> Result<Vec<Parameter>, Stop>
    ensures { Reads (λ x. map plain_parameter x.items) result tokens.new (spec.listed_parameters tokens.old) }
{
    separated(alloc, tokens)
}

/// Parameters in parentheses, or `()`.
#[tactic(auto, unfolding(crate::specs::Types::parameters))]
pub fn parameters(alloc: Global, tokens: &mut Tokens<'_>) -> Result<Vec<Parameter>, Stop>
    ensures { Reads (λ x. map plain_parameter x.items) result tokens.new (spec.parameters tokens.old) }
{
    tokens.symbol(Symbol::LeftParen)?;
    match tokens.eat_symbol(Symbol::RightParen) {
        Some(_) => Ok(Vec::new(alloc)),
        None => some_parameters(alloc, tokens),
    }
}

/// What is behind the `{` of a quantifier that begins a clause.
#[tactic(auto, unfolding(crate::specs::Types::quantified_clause))]
fn quantified_clause(alloc: Global, tokens: &mut Tokens<'_>, at: u32) -> Result<WrittenClause, Stop>
    ensures { Reads plain_clause result tokens.new (spec.quantified_clause at tokens.old) }
{
    let quantifier = quantified(alloc, tokens, at)?;
    if let Err(stop) = tokens.symbol(Symbol::LeftParen) {
        return Err(stop.behind(quantifier));
    }
    match some_parameters(alloc, tokens) {
        Ok(variables) => Ok(WrittenClause {
            quantifier: Some(quantifier),
            variables,
            at,
        }),
        Err(stop) => Err(stop.behind(quantifier)),
    }
}

/// A clause: a quantifier or none, and variables in parentheses.
#[tactic(auto, unfolding(crate::specs::Types::clause))]
fn clause(alloc: Global, tokens: &mut Tokens<'_>) -> Result<WrittenClause, Stop>
    ensures { Reads plain_clause result tokens.new (spec.clause tokens.old) }
{
    if let Some(at) = tokens.eat_symbol(Symbol::LeftBrace) {
        return quantified_clause(alloc, tokens, at);
    }
    let at = tokens.symbol(Symbol::LeftParen)?;
    let variables = some_parameters(alloc, tokens)?;
    Ok(WrittenClause {
        quantifier: None,
        variables,
        at,
    })
}

/// A clause behind this keyword, or nothing.
#[tactic(auto, unfolding(crate::specs::Types::clause_behind))]
pub fn clause_behind(
    alloc: Global,
    tokens: &mut Tokens<'_>,
    keyword: Keyword,
) -> Result<Option<WrittenClause>, Stop>
    ensures { Reads (option_map plain_clause) result tokens.new (spec.clause_behind keyword tokens.old) }
{
    match tokens.eat_keyword(keyword) {
        Some(_) => Ok(Some(clause(alloc, tokens)?)),
        None => Ok(None),
    }
}
