//! How many brackets are open.

ghost use Rattle.std.specs.Prelude.{◌≡◌, ◌≤◌, map, reverse, sum, OnOk, IfOk, nat_lt};
ghost use Rattle.xanadu_tree.specs.Nesting as spec;
ghost use Rattle.xanadu_parser.specs.Kinds.{kinds_of};

use std::alloc::Global;
use xan_io::Memory;
use xanadu_lexer::{Symbol, Token, TokenKind};

/// The greatest number of brackets that may be open at a token.
const NESTING_MOST: usize = 64;

/// The brackets that are open, in groups: the size of each group, the last one last, and how many brackets they are together.
#[derive(Drop)]
struct Open {
    groups: Vec<usize>,
    count: usize,
    ghost counted: { count ≡ sum groups.items },
}

impl Open {
    /// A group of its own.
    #[tactic(auto, using(crate::proofs::Groups::group_lists))]
    fn begin(&mut self) -> Result<(), Memory>
        requires { self.old.count ≤ 64 }
        ensures { OnOk result (reverse self.new.groups.items ≡ spec.begun (reverse self.old.groups.items)) }
    {
        self.groups.push(1)?;
        self.count += 1;
        Ok(())
    }

    /// One more in the last group, where there is one.
    #[tactic(auto, using(crate::proofs::Groups::group_lists))]
    fn join(&mut self) -> Result<(), Memory>
        requires { self.old.count ≤ 64 }
        ensures { OnOk result (reverse self.new.groups.items ≡ spec.joined (reverse self.old.groups.items)) }
    {
        match self.groups.pop() {
            Some(size) => {
                self.count -= size;
                self.groups.push(size + 1)?;
                self.count += size + 1;
                Ok(())
            }
            None => self.begin(),
        }
    }

    /// Closes the whole last group, where there is one.
    #[tactic(auto, using(crate::proofs::Groups::group_lists))]
    fn close(&mut self)
        ensures { reverse self.new.groups.items ≡ spec.closed (reverse self.old.groups.items) }
    {
        if let Some(size) = self.groups.pop() {
            self.count -= size;
        }
    }

    /// What this mark does, behind a `]` or not and before a `[` or not.
    fn meet(&mut self, symbol: Symbol, behind: bool, before: bool) -> Result<(), Memory>
        requires { self.old.count ≤ 64 }
        ensures { OnOk result (reverse self.new.groups.items ≡ spec.groups_at_symbol symbol behind before (reverse self.old.groups.items)) }
    {
        match symbol {
            Symbol::LeftParen | Symbol::LeftBrace => self.begin()?,
            Symbol::LeftBracket => {
                if behind {
                    self.join()?;
                } else {
                    self.begin()?;
                }
            }
            Symbol::RightParen | Symbol::RightBrace => self.close(),
            Symbol::RightBracket => {
                if !before {
                    self.close();
                }
            }
            _ => {}
        }
        Ok(())
    }

    /// What a token of this kind does.
    fn see(&mut self, kind: &TokenKind, behind: bool, before: bool) -> Result<(), Memory>
        requires { self.old.count ≤ 64 }
        ensures { OnOk result (reverse self.new.groups.items ≡ spec.groups_at kind.now behind before (reverse self.old.groups.items)) }
    {
        match kind {
            TokenKind::Symbol(symbol) => self.meet(*symbol, behind, before),
            _ => Ok(()),
        }
    }
}

/// Whether the kind is a `[`.
fn is_left_bracket(kind: &TokenKind) -> bool
    ensures { result ≡ spec.is_left_bracket kind.now }
{
    match kind {
        TokenKind::Symbol(Symbol::LeftBracket) => true,
        _ => false,
    }
}

/// Whether the kind is a `]`.
fn is_right_bracket(kind: &TokenKind) -> bool
    ensures { result ≡ spec.is_right_bracket kind.now }
{
    match kind {
        TokenKind::Symbol(Symbol::RightBracket) => true,
        _ => false,
    }
}

/// Whether the first token is a `[`.
fn begins_with_left_bracket(tokens: &[Token]) -> bool
    ensures { result ≡ spec.begins_with_left_bracket (kinds_of tokens.now) }
{
    match tokens {
        [token, ..] => is_left_bracket(&token.kind),
        [] => false,
    }
}

/// Whether more than 64 brackets are open at some token.
///
/// Open brackets stand in groups. An opening mark begins a group, except that a `[` behind a `]` joins the last one. A closing mark closes the
/// whole last group, whatever the kinds, except that a `]` before a `[` closes nothing.
pub fn is_too_nested(alloc: Global, tokens: &[Token]) -> Result<bool, Memory>
    ensures { IfOk result (λ deep. deep ≡ nat_lt 64 (spec.nesting (kinds_of tokens.now))) }
{
    let mut open = Open {
        groups: Vec::new(alloc),
        count: 0,
    };
    let mut behind = false;
    let mut rest = tokens;
    while let [token, others @ ..] = rest {
        open.see(&token.kind, behind, begins_with_left_bracket(others))?;
        if open.count > NESTING_MOST {
            return Ok(true);
        }
        behind = is_right_bracket(&token.kind);
        rest = others;
    }
    Ok(false)
}
