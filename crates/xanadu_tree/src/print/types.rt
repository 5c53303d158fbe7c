//! The text of types, parameters and clauses.

ghost use Rattle.std.specs.Prelude.{◌≡◌, ◌++◌, OnOk};
ghost use Rattle.xanadu_tree.specs.Printing.{type_text, clause_text, some_clause_text};

use crate::print::index::{put_index, put_some_index, put_some_quantifier};
use crate::print::list::{Part, put_list};
use crate::print::token::{put_element, put_lower, put_mark, put_upper, put_word};
use crate::tree::{Identifier, Parameter, Type, WrittenClause};
use xan_io::Memory;
use xanadu_lexer::{Keyword, Symbol};

#[tactic(auto, using(crate::proofs::TypeTexts::type_texts))]
pub(super) fn put_type(out: &mut Vec<u8>, ty: &Type) -> Result<(), Memory>
    ensures { OnOk result (out.new.items ≡ out.old.items ++ type_text ty.now) }
{
    match ty {
        Type::Int(_) => put_word(out, Keyword::Int),
        Type::IntOf(index, _) => {
            put_word(out, Keyword::Int)?;
            put_mark(out, Symbol::LeftParen)?;
            put_index(out, index)?;
            put_mark(out, Symbol::RightParen)
        }
        Type::Bool(_) => put_word(out, Keyword::Bool),
        Type::Named(name) => put_upper(out, name),
        Type::Array(element, length) => {
            put_element(out, element)?;
            put_mark(out, Symbol::LeftBracket)?;
            put_some_index(out, length)?;
            put_mark(out, Symbol::RightBracket)
        }
    }
}

impl Part for Type {
    ghost use Rattle.xanadu_tree.specs.Printing.{type_text};

    ghost text = { type_text };

    fn put(&self, out: &mut Vec<u8>) -> Result<(), Memory> {
        put_type(out, self)
    }
}

impl Part for Parameter {
    ghost use Rattle.xanadu_tree.specs.Printing.{parameter_text};

    ghost text = { parameter_text };

    #[tactic(auto, using(crate::proofs::TypeTexts::type_texts))]
    fn put(&self, out: &mut Vec<u8>) -> Result<(), Memory> {
        put_lower(out, &self.name)?;
        put_mark(out, Symbol::Colon)?;
        put_type(out, &self.ty)
    }
}

/// The name of a variable.
impl Part for Identifier {
    ghost use Rattle.xanadu_tree.specs.Printing.{name_text};

    ghost text = { name_text };

    #[tactic(auto, using(crate::proofs::TypeTexts::type_texts))]
    fn put(&self, out: &mut Vec<u8>) -> Result<(), Memory> {
        put_lower(out, self)
    }
}

#[tactic(auto, using(crate::proofs::TypeTexts::type_texts))]
fn put_clause(out: &mut Vec<u8>, clause: &WrittenClause) -> Result<(), Memory>
    ensures { OnOk result (out.new.items ≡ out.old.items ++ clause_text clause.now) }
{
    put_some_quantifier(out, &clause.quantifier)?;
    put_mark(out, Symbol::LeftParen)?;
    put_list(out, clause.variables.as_slice())?;
    put_mark(out, Symbol::RightParen)
}

/// A clause behind its keyword, or nothing.
#[tactic(auto, using(crate::proofs::TypeTexts::type_texts))]
pub(super) fn put_some_clause(
    out: &mut Vec<u8>,
    keyword: Keyword,
    clause: &Option<WrittenClause>,
) -> Result<(), Memory>
    ensures { OnOk result (out.new.items ≡ out.old.items ++ some_clause_text keyword clause.now) }
{
    match clause {
        None => Ok(()),
        Some(clause) => {
            put_word(out, keyword)?;
            put_clause(out, clause)
        }
    }
}
