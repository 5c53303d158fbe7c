//! The text of index expressions and quantifiers.

ghost use Rattle.std.specs.Prelude.{◌≡◌, ◌++◌, OnOk};
ghost use Rattle.xanadu_tree.specs.Printing.{index_term_text, signed_text, index_text, some_index_text, relations_text, quantifier_text, some_quantifier_text};

use crate::print::list::{Part, put_list};
use crate::print::token::{
    index_relation_symbol, put_lower, put_mark, put_mark_if, put_number, put_sign, put_word,
    sort_keyword,
};
use crate::tree::{Binder, IndexExpression, IndexTerm, Quantifier, Relation, Sign};
use xan_io::Memory;
use xanadu_lexer::Symbol;

#[tactic(auto, using(crate::proofs::TypeTexts::type_texts))]
fn put_index_term(out: &mut Vec<u8>, term: &IndexTerm) -> Result<(), Memory>
    ensures { OnOk result (out.new.items ≡ out.old.items ++ index_term_text term.now) }
{
    match term {
        IndexTerm::Number(number, _) => put_number(out, number),
        IndexTerm::Product(number, variable, _) => {
            put_number(out, number)?;
            put_mark(out, Symbol::Star)?;
            put_lower(out, variable)
        }
        IndexTerm::Variable(variable) => put_lower(out, variable),
    }
}

fn put_signed(out: &mut Vec<u8>, terms: &[(Sign, IndexTerm)]) -> Result<(), Memory>
    ensures { OnOk result (out.new.items ≡ out.old.items ++ signed_text terms.now) }
{
    for (sign, term) in terms {
        put_sign(out, *sign)?;
        put_index_term(out, term)?;
    }
    Ok(())
}

#[tactic(auto, using(crate::proofs::TypeTexts::type_texts))]
pub(super) fn put_index(out: &mut Vec<u8>, e: &IndexExpression) -> Result<(), Memory>
    ensures { OnOk result (out.new.items ≡ out.old.items ++ index_text e.now) }
{
    put_mark_if(out, e.negative, Symbol::Minus)?;
    put_index_term(out, &e.first)?;
    put_signed(out, e.rest.as_slice())
}

#[tactic(auto, using(crate::proofs::TypeTexts::type_texts))]
pub(super) fn put_some_index(out: &mut Vec<u8>, e: &Option<IndexExpression>) -> Result<(), Memory>
    ensures { OnOk result (out.new.items ≡ out.old.items ++ some_index_text e.now) }
{
    match e {
        None => Ok(()),
        Some(e) => put_index(out, e),
    }
}

impl Part for Relation {
    ghost use Rattle.xanadu_tree.specs.Printing.{relation_text};

    ghost text = { relation_text };

    #[tactic(auto, using(crate::proofs::TypeTexts::type_texts))]
    fn put(&self, out: &mut Vec<u8>) -> Result<(), Memory> {
        put_index(out, &self.left)?;
        put_mark(out, index_relation_symbol(self.relation))?;
        put_index(out, &self.right)
    }
}

impl Part for Binder {
    ghost use Rattle.xanadu_tree.specs.Printing.{binder_text};

    ghost text = { binder_text };

    #[tactic(auto, using(crate::proofs::TypeTexts::type_texts))]
    fn put(&self, out: &mut Vec<u8>) -> Result<(), Memory> {
        put_lower(out, &self.name)?;
        put_mark(out, Symbol::Colon)?;
        put_word(out, sort_keyword(self.sort))
    }
}

/// Relations behind a `|`, or nothing.
#[tactic(auto, using(crate::proofs::TypeTexts::type_texts))]
fn put_relations(out: &mut Vec<u8>, relations: &[Relation]) -> Result<(), Memory>
    ensures { OnOk result (out.new.items ≡ out.old.items ++ relations_text relations.now) }
{
    if relations.is_empty() {
        return Ok(());
    }
    put_mark(out, Symbol::Bar)?;
    put_list(out, relations)
}

#[tactic(auto, using(crate::proofs::TypeTexts::type_texts))]
fn put_quantifier(out: &mut Vec<u8>, quantifier: &Quantifier) -> Result<(), Memory>
    ensures { OnOk result (out.new.items ≡ out.old.items ++ quantifier_text quantifier.now) }
{
    put_mark(out, Symbol::LeftBrace)?;
    put_list(out, quantifier.binders.as_slice())?;
    put_relations(out, quantifier.relations.as_slice())?;
    put_mark(out, Symbol::RightBrace)
}

#[tactic(auto, using(crate::proofs::TypeTexts::type_texts))]
pub(super) fn put_some_quantifier(
    out: &mut Vec<u8>,
    quantifier: &Option<Quantifier>,
) -> Result<(), Memory>
    ensures { OnOk result (out.new.items ≡ out.old.items ++ some_quantifier_text quantifier.now) }
{
    match quantifier {
        None => Ok(()),
        Some(quantifier) => put_quantifier(out, quantifier),
    }
}
