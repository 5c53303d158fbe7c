//! The text of single tokens, each with a space behind it.

ghost use Rattle.std.specs.Prelude.{◌≡◌, ℕ, [], ◌∷◌, ◌++◌, OnOk};
ghost use Rattle.xanadu_lexer.specs.Spelling.{number_text};
ghost use Rattle.xanadu_lexer.specs.declared.token.TokenKind.TheVariants as kind;
ghost use Rattle.xanadu_tree.specs.Pieces.{shown, text};
ghost use Rattle.xanadu_tree.specs.Printing.{comma_unless};
ghost use Rattle.xanadu_tree.specs.Spelling as spec;

use crate::expr::{Op, Rel};
use crate::tree::{Element, Identifier, IndexRelation, Sign, Sort};
use itoa::Buffer;
use xan_io::Memory;
use xanadu_lexer::{Keyword, Symbol};

fn put_text(out: &mut Vec<u8>, text: &[u8]) -> Result<(), Memory>
    ensures { OnOk result (out.new.items ≡ out.old.items ++ (text.now ++ 32 ∷ [])) }
{
    out.extend_from_slice(text)?;
    out.push(b' ')?;
    Ok(())
}

#[tactic(auto, unfolding(crate::specs::Pieces::shown))]
pub(super) fn put_word(out: &mut Vec<u8>, keyword: Keyword) -> Result<(), Memory>
    ensures { OnOk result (out.new.items ≡ out.old.items ++ shown (kind.Keyword keyword)) }
{
    put_text(out, keyword.text())
}

#[tactic(auto, unfolding(crate::specs::Pieces::shown))]
pub(super) fn put_mark(out: &mut Vec<u8>, symbol: Symbol) -> Result<(), Memory>
    ensures { OnOk result (out.new.items ≡ out.old.items ++ shown (kind.Symbol symbol)) }
{
    put_text(out, symbol.text())
}

pub(super) fn put_op(out: &mut Vec<u8>, op: Op) -> Result<(), Memory>
    ensures { OnOk result (out.new.items ≡ out.old.items ++ shown (kind.Symbol (spec.op_symbol op))) }
{
    put_mark(out, op_symbol(op))
}

pub(super) fn put_rel(out: &mut Vec<u8>, rel: Rel) -> Result<(), Memory>
    ensures { OnOk result (out.new.items ≡ out.old.items ++ shown (kind.Symbol (spec.rel_symbol rel))) }
{
    put_mark(out, rel_symbol(rel))
}

pub(super) fn put_sign(out: &mut Vec<u8>, sign: Sign) -> Result<(), Memory>
    ensures { OnOk result (out.new.items ≡ out.old.items ++ shown (kind.Symbol (spec.sign_symbol sign))) }
{
    put_mark(out, sign_symbol(sign))
}

/// The mark where `is_there`, else nothing.
pub(super) fn put_mark_if(out: &mut Vec<u8>, is_there: bool, symbol: Symbol) -> Result<(), Memory>
    ensures { (at : ℕ) → OnOk result (out.new.items ≡ out.old.items ++ text (spec.mark_if is_there symbol at)) }
{
    if is_there {
        put_mark(out, symbol)?;
    }
    Ok(())
}

/// A comma before each item of a list but the first.
pub(super) fn put_comma_unless(out: &mut Vec<u8>, is_first: bool) -> Result<(), Memory>
    ensures { OnOk result (out.new.items ≡ out.old.items ++ comma_unless is_first) }
{
    if !is_first {
        put_mark(out, Symbol::Comma)?;
    }
    Ok(())
}

/// A name that begins with a small letter.
#[tactic(auto, unfolding(crate::specs::Pieces::shown))]
pub(super) fn put_lower(out: &mut Vec<u8>, name: &Identifier) -> Result<(), Memory>
    ensures { OnOk result (out.new.items ≡ out.old.items ++ shown (kind.Lower name.now.name)) }
{
    put_text(out, name.name.bytes())
}

/// A name that begins with a capital letter.
#[tactic(auto, unfolding(crate::specs::Pieces::shown))]
pub(super) fn put_upper(out: &mut Vec<u8>, name: &Identifier) -> Result<(), Memory>
    ensures { OnOk result (out.new.items ≡ out.old.items ++ shown (kind.Upper name.now.name)) }
{
    put_text(out, name.name.bytes())
}

fn put_digits(out: &mut Vec<u8>, number: &i64) -> Result<(), Memory>
    ensures { OnOk result (out.new.items ≡ out.old.items ++ number_text number.now) }
{
    if let Ok(number) = u64::try_from(*number) {
        out.extend_from_slice(Buffer::new().format(number).as_bytes())?;
    }
    Ok(())
}

/// A number of at least 0. No token has one below 0, and of such a one nothing is put but the space.
#[tactic(auto, unfolding(crate::specs::Pieces::shown))]
pub(super) fn put_number(out: &mut Vec<u8>, number: &i64) -> Result<(), Memory>
    ensures { OnOk result (out.new.items ≡ out.old.items ++ shown (kind.Num number.now)) }
{
    put_digits(out, number)?;
    out.push(b' ')?;
    Ok(())
}

/// The type of an array's cells.
pub(super) fn put_element(out: &mut Vec<u8>, element: &Element) -> Result<(), Memory>
    ensures { OnOk result (out.new.items ≡ out.old.items ++ shown (spec.element_piece element.now).kind) }
{
    match element {
        Element::Int(_) => put_word(out, Keyword::Int),
        Element::Bool(_) => put_word(out, Keyword::Bool),
        Element::Named(name) => put_upper(out, name),
    }
}

fn op_symbol(op: Op) -> Symbol
    ensures { result ≡ spec.op_symbol op }
{
    match op {
        Op::Add => Symbol::Plus,
        Op::Sub => Symbol::Minus,
        Op::Mul => Symbol::Star,
        Op::Div => Symbol::Slash,
        Op::Mod => Symbol::Percent,
    }
}

fn rel_symbol(rel: Rel) -> Symbol
    ensures { result ≡ spec.rel_symbol rel }
{
    match rel {
        Rel::Lt => Symbol::Less,
        Rel::Le => Symbol::LessEqual,
        Rel::Gt => Symbol::Greater,
        Rel::Ge => Symbol::GreaterEqual,
        Rel::Eq => Symbol::EqualEqual,
        Rel::Ne => Symbol::NotEqual,
    }
}

pub(super) fn index_relation_symbol(relation: IndexRelation) -> Symbol
    ensures { result ≡ spec.index_relation_symbol relation }
{
    match relation {
        IndexRelation::Less => Symbol::Less,
        IndexRelation::AtMost => Symbol::LessEqual,
        IndexRelation::Greater => Symbol::Greater,
        IndexRelation::AtLeast => Symbol::GreaterEqual,
        IndexRelation::Equal => Symbol::Equal,
    }
}

fn sign_symbol(sign: Sign) -> Symbol
    ensures { result ≡ spec.sign_symbol sign }
{
    match sign {
        Sign::Plus => Symbol::Plus,
        Sign::Minus => Symbol::Minus,
    }
}

pub(super) fn sort_keyword(sort: Sort) -> Keyword
    ensures { result ≡ spec.sort_keyword sort }
{
    match sort {
        Sort::Int => Keyword::Int,
        Sort::Nat => Keyword::Nat,
    }
}

pub(super) fn truth_keyword(truth: bool) -> Keyword
    ensures { result ≡ spec.truth_keyword truth }
{
    if truth { Keyword::True } else { Keyword::False }
}
