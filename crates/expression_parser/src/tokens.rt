//! A cursor over the tokens of a source.

ghost use Rattle.std.specs.Prelude.{◌≡◌, length, drop};
ghost use Rattle.expression_parser.specs.Code.{Reads, Eats, EatsNamed};
ghost use Rattle.xan_read.specs.Symbols as spec;
ghost use Rattle.expression_parser.specs.Tables as table;

use crate::stop::Stop;
use std::alloc::Global;
use std::marker::Model;
use xan_io::Memory;
use xanadu_lexer::{Keyword, Symbol, Token, TokenKind};
use xanadu_tree::Identifier;

/// The tokens that are left, which contracts see as their list.
#[derive(Drop)]
pub struct Tokens<'a> {
    rest: &'a [Token],
}

impl<'a> Model for Tokens<'a> {
    ghost use Rattle.std.specs.Prelude.{List};
    ghost use Rattle.std.specs.Coded.{codes, coded_list};
    ghost use Rattle.xanadu_lexer.specs.declared.token.Token.{Token as OneToken};
    ghost use Rattle.xanadu_lexer.specs.contracts.token.Token as token;

    ghost Value = { List OneToken };

    ghost coded = { Prim.hlevel (codes, token.the_row.coded) };

    ghost view = { λ tokens. tokens.rest.now };
}

impl<'a> Tokens<'a> {
    /// All of these tokens.
    pub fn new(rest: &'a [Token]) -> Tokens<'a>
        ensures { result ≡ rest.now }
    {
        Tokens { rest }
    }

    /// How many are left.
    pub fn left(&self) -> usize
        ensures { result ≡ length self.now }
    {
        self.rest.len()
    }

    /// The fault at the next token.
    pub fn fault(&self) -> Stop
        ensures { result ≡ Stop.Fault (length self.now) }
    {
        Stop::Fault(self.rest.len())
    }

    /// The next token and its offset, where it is a mark.
    #[tactic(auto, unfolding(crate::specs::Tables::next_symbol))]
    pub fn next_symbol(&self) -> Option<(Symbol, u32)>
        ensures { result ≡ table.next_symbol self.now }
    {
        let [token, ..] = self.rest else {
            return None;
        };
        match &token.kind {
            TokenKind::Symbol(symbol) => Some((*symbol, token.at)),
            _ => None,
        }
    }

    /// Leaves out the next token.
    pub fn skip(&mut self)
        ensures { self.new ≡ drop 1 self.old }
    {
        if let [_, rest @ ..] = self.rest {
            self.rest = rest;
        }
    }

    /// Takes this mark where it comes next, and gives its offset.
    #[tactic(auto, unfolding(xan_read::specs::Symbols::eat, crate::specs::Tables::mark))]
    pub fn eat_symbol(&mut self, wanted: Symbol) -> Option<u32>
        ensures { Eats (λ at. at) result self.old self.new (spec.eat (table.mark wanted) self.old) }
    {
        let [token, rest @ ..] = self.rest else {
            return None;
        };
        match &token.kind {
            TokenKind::Symbol(symbol) if *symbol == wanted => {
                self.rest = rest;
                Some(token.at)
            }
            _ => None,
        }
    }

    /// Takes this keyword where it comes next, and gives its offset.
    #[tactic(auto, unfolding(xan_read::specs::Symbols::eat, crate::specs::Tables::keyword))]
    pub fn eat_keyword(&mut self, wanted: Keyword) -> Option<u32>
        ensures { Eats (λ at. at) result self.old self.new (spec.eat (table.keyword wanted) self.old) }
    {
        let [token, rest @ ..] = self.rest else {
            return None;
        };
        match &token.kind {
            TokenKind::Keyword(keyword) if *keyword == wanted => {
                self.rest = rest;
                Some(token.at)
            }
            _ => None,
        }
    }

    /// Takes a number where one comes next, and gives it with its offset.
    #[tactic(auto, unfolding(xan_read::specs::Symbols::eat, crate::specs::Tables::number))]
    pub fn eat_number(&mut self) -> Option<(i64, u32)>
        ensures { Eats (λ x. x) result self.old self.new (spec.eat table.number self.old) }
    {
        let [token, rest @ ..] = self.rest else {
            return None;
        };
        match &token.kind {
            TokenKind::Num(number) => {
                self.rest = rest;
                Some((*number, token.at))
            }
            _ => None,
        }
    }

    /// Takes a name that begins with a small letter, where one comes next.
    #[tactic(auto, unfolding(xan_read::specs::Symbols::eat, crate::specs::Tables::lower))]
    pub fn eat_lower(&mut self) -> Result<Option<Identifier>, Memory>
        ensures { EatsNamed result self.old self.new (spec.eat table.lower self.old) }
    {
        let [token, rest @ ..] = self.rest else {
            return Ok(None);
        };
        match &token.kind {
            TokenKind::Lower(name) => {
                let name = name.copy()?;
                self.rest = rest;
                Ok(Some(Identifier { name, at: token.at }))
            }
            _ => Ok(None),
        }
    }

    /// Takes a name that begins with a capital letter, where one comes next.
    #[tactic(auto, unfolding(xan_read::specs::Symbols::eat, crate::specs::Tables::upper))]
    pub fn eat_upper(&mut self) -> Result<Option<Identifier>, Memory>
        ensures { EatsNamed result self.old self.new (spec.eat table.upper self.old) }
    {
        let [token, rest @ ..] = self.rest else {
            return Ok(None);
        };
        match &token.kind {
            TokenKind::Upper(name) => {
                let name = name.copy()?;
                self.rest = rest;
                Ok(Some(Identifier { name, at: token.at }))
            }
            _ => Ok(None),
        }
    }

    /// Takes this mark, and gives its offset.
    #[tactic(auto, unfolding(xan_read::specs::Symbols::take))]
    pub fn symbol(&mut self, wanted: Symbol) -> Result<u32, Stop>
        ensures { Reads (λ at. at) result self.new (spec.take (table.mark wanted) self.old) }
    {
        match self.eat_symbol(wanted) {
            Some(at) => Ok(at),
            None => Err(self.fault()),
        }
    }

    /// Takes this keyword, and gives its offset.
    #[tactic(auto, unfolding(xan_read::specs::Symbols::take))]
    pub fn keyword(&mut self, wanted: Keyword) -> Result<u32, Stop>
        ensures { Reads (λ at. at) result self.new (spec.take (table.keyword wanted) self.old) }
    {
        match self.eat_keyword(wanted) {
            Some(at) => Ok(at),
            None => Err(self.fault()),
        }
    }

    /// Takes a number, and gives it with its offset.
    #[tactic(auto, unfolding(xan_read::specs::Symbols::take))]
    pub fn number(&mut self) -> Result<(i64, u32), Stop>
        ensures { Reads (λ x. x) result self.new (spec.take table.number self.old) }
    {
        match self.eat_number() {
            Some(found) => Ok(found),
            None => Err(self.fault()),
        }
    }

    /// Takes a name that begins with a small letter.
    #[tactic(auto, unfolding(xan_read::specs::Symbols::take))]
    pub fn lower(&mut self) -> Result<Identifier, Stop>
        ensures { Reads (λ x. x) result self.new (spec.take table.lower self.old) }
    {
        match self.eat_lower()? {
            Some(name) => Ok(name),
            None => Err(self.fault()),
        }
    }

    /// Takes a name that begins with a capital letter.
    #[tactic(auto, unfolding(xan_read::specs::Symbols::take))]
    pub fn upper(&mut self) -> Result<Identifier, Stop>
        ensures { Reads (λ x. x) result self.new (spec.take table.upper self.old) }
    {
        match self.eat_upper()? {
            Some(name) => Ok(name),
            None => Err(self.fault()),
        }
    }
}
