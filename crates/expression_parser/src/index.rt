//! Index expressions and quantifiers.

ghost use Rattle.std.specs.Prelude.{◌≡◌, map};
ghost use Rattle.std.specs.Option.{option_map};
ghost use Rattle.xanadu_tree.specs.PlainTreeOf.{plain_index, plain_relation, plain_quantifier};
ghost use Rattle.xanadu_tree.specs.Written.{index_term_at};
ghost use Rattle.xanadu_tree.specs.PlainTree as plain;
ghost use Rattle.xanadu_tree.specs.declared.tree.index.Binder.{Binder as TheBinder};
ghost use Rattle.expression_parser.specs.Code.{Reads};
ghost use Rattle.expression_parser.specs.Index as spec;

use crate::lists::{Item, separated};
use crate::operators::{eat_index_relation, eat_sign};
use crate::room::push_closely;
use crate::stop::Stop;
use crate::tokens::Tokens;
use std::alloc::Global;
use xanadu_lexer::{Keyword, Symbol};
use xanadu_tree::{
    Binder, IndexExpression, IndexRelation, IndexTerm, Quantifier, Relation, Sign, Sort,
};

/// `N`, `N * n` or `n`.
#[tactic(auto, unfolding(crate::specs::Index::term, crate::specs::Index::scaled))]
fn term(tokens: &mut Tokens<'_>) -> Result<IndexTerm, Stop>
    ensures { Reads (λ x. x) result tokens.new (spec.term tokens.old) }
{
    let Some((number, at)) = tokens.eat_number() else {
        return Ok(IndexTerm::Variable(tokens.lower()?));
    };
    if tokens.eat_symbol(Symbol::Star).is_none() {
        return Ok(IndexTerm::Number(number, at));
    }
    Ok(IndexTerm::Product(number, tokens.lower()?, at))
}

/// Terms with a sign before each.
#[tactic(auto, unfolding(crate::specs::Index::terms))]
fn terms(alloc: Global, tokens: &mut Tokens<'_>) -> Result<Vec<(Sign, IndexTerm)>, Stop>
    ensures { Reads (λ x. x.items) result tokens.new (spec.terms tokens.old) }
{
    let mut found = Vec::new(alloc);
    for _turn in 0..tokens.left() {
        let Some((sign, _)) = eat_sign(tokens) else {
            return Ok(found);
        };
        push_closely(&mut found, (sign, term(tokens)?))?;
    }
    Ok(found)
}

/// Where a term begins.
fn term_at(term: &IndexTerm) -> u32
    ensures { result ≡ index_term_at term.now }
{
    match term {
        IndexTerm::Number(_, at) | IndexTerm::Product(_, _, at) => *at,
        IndexTerm::Variable(name) => name.at,
    }
}

/// Terms with signs between them, and a `-` before the first or none.
#[tactic(auto, unfolding(crate::specs::Index::index))]
pub fn index_expression(alloc: Global, tokens: &mut Tokens<'_>) -> Result<IndexExpression, Stop>
    ensures { Reads plain_index result tokens.new (spec.index tokens.old) }
{
    let minus = tokens.eat_symbol(Symbol::Minus);
    let first = term(tokens)?;
    let rest = match terms(alloc, tokens) {
        Ok(rest) => rest,
        Err(stop) => return Err(stop.behind(first)),
    };
    match minus {
        Some(at) => Ok(IndexExpression {
            negative: true,
            first,
            rest,
            at,
        }),
        None => {
            let at = term_at(&first);
            Ok(IndexExpression {
                negative: false,
                first,
                rest,
                at,
            })
        }
    }
}

/// One of the five relations between indices.
#[tactic(auto, unfolding(crate::specs::Index::between, xan_read::specs::Symbols::take))]
fn between(tokens: &mut Tokens<'_>) -> Result<IndexRelation, Stop>
    ensures { Reads (λ x. x) result tokens.new (spec.between tokens.old) }
{
    match eat_index_relation(tokens) {
        Some((relation, _)) => Ok(relation),
        None => Err(tokens.fault()),
    }
}

#[tactic(auto, unfolding(crate::specs::Index::relation))]
fn relation(alloc: Global, tokens: &mut Tokens<'_>) -> Result<Relation, Stop>
    ensures { Reads plain_relation result tokens.new (spec.relation tokens.old) }
{
    let left = index_expression(alloc, tokens)?;
    let relation = match between(tokens) {
        Ok(relation) => relation,
        Err(stop) => return Err(stop.behind(left)),
    };
    match index_expression(alloc, tokens) {
        Ok(right) => Ok(Relation {
            left,
            relation,
            right,
        }),
        Err(stop) => Err(stop.behind(left)),
    }
}

impl Item for Relation {
    ghost Plain = { plain.Relation };

    ghost view = { plain_relation };

    ghost reader = { spec.relation };

    fn read(alloc: Global, tokens: &mut Tokens<'_>) -> Result<Relation, Stop> {
        relation(alloc, tokens)
    }
}

/// Relations with commas between them, at least one.
#[tactic(auto, unfolding(crate::specs::Index::relations))]
fn relations(alloc: Global, tokens: &mut Tokens<'_>) -> Result<Vec<Relation>, Stop>
    ensures { Reads (λ x. map plain_relation x.items) result tokens.new (spec.relations tokens.old) }
{
    separated(alloc, tokens)
}

/// What is assumed of a quantifier's variables, behind a `|`, or nothing.
#[tactic(auto, unfolding(crate::specs::Index::assumed))]
fn assumed(alloc: Global, tokens: &mut Tokens<'_>) -> Result<Vec<Relation>, Stop>
    ensures { Reads (λ x. map plain_relation x.items) result tokens.new (spec.assumed tokens.old) }
{
    match tokens.eat_symbol(Symbol::Bar) {
        Some(_) => relations(alloc, tokens),
        None => Ok(Vec::new(alloc)),
    }
}

/// `int` or `nat`.
#[tactic(auto, unfolding(crate::specs::Index::sort))]
fn sort(tokens: &mut Tokens<'_>) -> Result<Sort, Stop>
    ensures { Reads (λ x. x) result tokens.new (spec.sort tokens.old) }
{
    if tokens.eat_keyword(Keyword::Int).is_some() {
        return Ok(Sort::Int);
    }
    tokens.keyword(Keyword::Nat)?;
    Ok(Sort::Nat)
}

/// A variable, `:` and its sort.
#[tactic(auto, unfolding(crate::specs::Index::binder))]
fn binder(tokens: &mut Tokens<'_>) -> Result<Binder, Stop>
    ensures { Reads (λ x. x) result tokens.new (spec.binder tokens.old) }
{
    let name = tokens.lower()?;
    tokens.symbol(Symbol::Colon)?;
    let sort = sort(tokens)?;
    Ok(Binder { name, sort })
}

impl Item for Binder {
    ghost Plain = { TheBinder };

    ghost view = { λ x. x };

    ghost reader = { spec.binder };

    fn read(_alloc: Global, tokens: &mut Tokens<'_>) -> Result<Binder, Stop> {
        binder(tokens)
    }
}

/// Binders with commas between them, at least one.
#[tactic(auto, unfolding(crate::specs::Index::binders))]
fn binders(alloc: Global, tokens: &mut Tokens<'_>) -> Result<Vec<Binder>, Stop>
    ensures { Reads (λ x. x.items) result tokens.new (spec.binders tokens.old) }
{
    separated(alloc, tokens)
}

/// What is behind the `{` of a quantifier, which stands at this offset.
#[tactic(auto, unfolding(crate::specs::Index::quantified))]
pub fn quantified(alloc: Global, tokens: &mut Tokens<'_>, at: u32) -> Result<Quantifier, Stop>
    ensures { Reads plain_quantifier result tokens.new (spec.quantified at tokens.old) }
{
    let binders = binders(alloc, tokens)?;
    let relations = assumed(alloc, tokens)?;
    tokens.symbol(Symbol::RightBrace)?;
    Ok(Quantifier {
        binders,
        relations,
        at,
    })
}

/// A quantifier in braces, or nothing.
#[tactic(auto, unfolding(crate::specs::Index::quantifier))]
pub fn quantifier(alloc: Global, tokens: &mut Tokens<'_>) -> Result<Option<Quantifier>, Stop>
    ensures { Reads (option_map plain_quantifier) result tokens.new (spec.quantifier tokens.old) }
{
    match tokens.eat_symbol(Symbol::LeftBrace) {
        Some(at) => Ok(Some(quantified(alloc, tokens, at)?)),
        None => Ok(None),
    }
}
