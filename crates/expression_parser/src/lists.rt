//! Lists with commas.

ghost use Rattle.std.specs.Prelude.{map};
ghost use Rattle.expression_parser.specs.Code.{Reads};
ghost use Rattle.expression_parser.specs.Reader.{Reader};
ghost use Rattle.expression_parser.specs.Tables.{mark, lower};
ghost use Rattle.xan_read.specs.Symbols.{separated, take};
ghost use Rattle.xanadu_lexer.specs.declared.symbol.Symbol.TheVariants as symbol;
ghost use Rattle.xanadu_tree.specs.declared.tree.declaration.Identifier.{Identifier as Name};

use crate::room::{push_closely, push_read};
use crate::stop::Stop;
use crate::tokens::Tokens;
use std::alloc::Global;
use xanadu_lexer::Symbol;
use xanadu_tree::Identifier;

/// What stands in lists with commas.
pub trait Item: Drop {
    ghost Plain: { Type 0 };

    ghost view: { Self → Plain };

    ghost reader: { Reader Plain };

    /// The item that comes next.
    fn read(alloc: Global, tokens: &mut Tokens<'_>) -> Result<Self, Stop>
        ensures { Reads view result tokens.new (reader tokens.old) };
}

impl Item for Identifier {
    ghost Plain = { Name };

    ghost view = { λ x. x };

    ghost reader = { take lower };

    fn read(_alloc: Global, tokens: &mut Tokens<'_>) -> Result<Identifier, Stop> {
        tokens.lower()
    }
}

/// Items with commas between them, at least one.
pub fn separated<T: Item>(alloc: Global, tokens: &mut Tokens<'_>) -> Result<Vec<T>, Stop>
    ensures { Reads (λ x. map T.view x.items) result tokens.new (separated (mark symbol.Comma) T.reader tokens.old) }
{
    let mut found = Vec::new(alloc);
    push_closely(&mut found, T::read(alloc, tokens)?)?;
    for _turn in 0..tokens.left() {
        let Some(_) = tokens.eat_symbol(Symbol::Comma) else {
            return Ok(found);
        };
        push_read(&mut found, T::read(alloc, tokens))?;
    }
    Ok(found)
}
