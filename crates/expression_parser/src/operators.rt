//! The marks that stand for operators and relations.

ghost use Rattle.std.specs.Prelude.{◌≡◌};
ghost use Rattle.expression_parser.specs.Code.{Eats};
ghost use Rattle.xan_read.specs.Symbols.{eat};
ghost use Rattle.expression_parser.specs.Tables as table;

use crate::tokens::Tokens;
use xanadu_lexer::Symbol;
use xanadu_tree::{IndexRelation, Op, Rel, Sign};

/// `+` or `-`, between products.
fn sum_operator(symbol: Symbol) -> Option<Op>
    ensures { result ≡ table.sum_operator symbol }
{
    match symbol {
        Symbol::Plus => Some(Op::Add),
        Symbol::Minus => Some(Op::Sub),
        _ => None,
    }
}

/// `*`, `/` or `%`, between operands.
fn product_operator(symbol: Symbol) -> Option<Op>
    ensures { result ≡ table.product_operator symbol }
{
    match symbol {
        Symbol::Star => Some(Op::Mul),
        Symbol::Slash => Some(Op::Div),
        Symbol::Percent => Some(Op::Mod),
        _ => None,
    }
}

/// A comparison, between sums.
fn relation(symbol: Symbol) -> Option<Rel>
    ensures { result ≡ table.relation symbol }
{
    match symbol {
        Symbol::Less => Some(Rel::Lt),
        Symbol::LessEqual => Some(Rel::Le),
        Symbol::Greater => Some(Rel::Gt),
        Symbol::GreaterEqual => Some(Rel::Ge),
        Symbol::EqualEqual => Some(Rel::Eq),
        Symbol::NotEqual => Some(Rel::Ne),
        _ => None,
    }
}

/// `+` or `-`, between terms of an index.
fn sign(symbol: Symbol) -> Option<Sign>
    ensures { result ≡ table.sign symbol }
{
    match symbol {
        Symbol::Plus => Some(Sign::Plus),
        Symbol::Minus => Some(Sign::Minus),
        _ => None,
    }
}

/// A relation between indices.
fn index_relation(symbol: Symbol) -> Option<IndexRelation>
    ensures { result ≡ table.index_relation symbol }
{
    match symbol {
        Symbol::Less => Some(IndexRelation::Less),
        Symbol::LessEqual => Some(IndexRelation::AtMost),
        Symbol::Greater => Some(IndexRelation::Greater),
        Symbol::GreaterEqual => Some(IndexRelation::AtLeast),
        Symbol::Equal => Some(IndexRelation::Equal),
        _ => None,
    }
}

/// Takes such a mark where it comes next, and gives what it stands for with its offset.
#[tactic(auto, using(crate::proofs::NextMarks::eat_among))]
pub fn eat_sum_operator(tokens: &mut Tokens<'_>) -> Option<(Op, u32)>
    ensures { Eats (λ x. x) result tokens.old tokens.new (eat (table.symbol_among table.sum_operator) tokens.old) }
{
    let (symbol, at) = tokens.next_symbol()?;
    let found = sum_operator(symbol)?;
    tokens.skip();
    Some((found, at))
}

/// Takes such a mark where it comes next, and gives what it stands for with its offset.
#[tactic(auto, using(crate::proofs::NextMarks::eat_among))]
pub fn eat_product_operator(tokens: &mut Tokens<'_>) -> Option<(Op, u32)>
    ensures { Eats (λ x. x) result tokens.old tokens.new (eat (table.symbol_among table.product_operator) tokens.old) }
{
    let (symbol, at) = tokens.next_symbol()?;
    let found = product_operator(symbol)?;
    tokens.skip();
    Some((found, at))
}

/// Takes such a mark where it comes next, and gives what it stands for with its offset.
#[tactic(auto, using(crate::proofs::NextMarks::eat_among))]
pub fn eat_relation(tokens: &mut Tokens<'_>) -> Option<(Rel, u32)>
    ensures { Eats (λ x. x) result tokens.old tokens.new (eat (table.symbol_among table.relation) tokens.old) }
{
    let (symbol, at) = tokens.next_symbol()?;
    let found = relation(symbol)?;
    tokens.skip();
    Some((found, at))
}

/// Takes such a mark where it comes next, and gives what it stands for with its offset.
#[tactic(auto, using(crate::proofs::NextMarks::eat_among))]
pub fn eat_sign(tokens: &mut Tokens<'_>) -> Option<(Sign, u32)>
    ensures { Eats (λ x. x) result tokens.old tokens.new (eat (table.symbol_among table.sign) tokens.old) }
{
    let (symbol, at) = tokens.next_symbol()?;
    let found = sign(symbol)?;
    tokens.skip();
    Some((found, at))
}

/// Takes such a mark where it comes next, and gives what it stands for with its offset.
#[tactic(auto, using(crate::proofs::NextMarks::eat_among))]
pub fn eat_index_relation(tokens: &mut Tokens<'_>) -> Option<(IndexRelation, u32)>
    ensures { Eats (λ x. x) result tokens.old tokens.new (eat (table.symbol_among table.index_relation) tokens.old) }
{
    let (symbol, at) = tokens.next_symbol()?;
    let found = index_relation(symbol)?;
    tokens.skip();
    Some((found, at))
}
