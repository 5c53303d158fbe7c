//! Index expressions and relations.

ghost use Rattle.std.specs.Prelude.{◌≡◌, map};
ghost use Rattle.xanadu_tree.specs.PlainTreeOf.{plain_index, plain_relation};
ghost use Rattle.type_shapes.specs.Code.{Gives};
ghost use Rattle.type_shapes.specs.FormOf.{form_of};
ghost use Rattle.type_shapes.specs.Linears as spec;
ghost use Rattle.type_shapes.specs.Names.{meaning, or_unknown};

use crate::error::{ShapeError, ShapeKind};
use crate::form::{Form, first_sign, opposite, signed, within};
use crate::scope::Scope;
use std::alloc::Global;
use xanadu_tree::{Identifier, IndexExpression, IndexRelation, IndexTerm, Linear, Relation, Sign};

/// What a name means, or the fault that it means nothing.
pub fn known(scope: &Scope<'_>, name: &Identifier) -> Result<u32, ShapeError>
    ensures { Gives (λ x. x) result (or_unknown name.now.at (meaning name.now.name scope.now)) }
{
    match scope.meaning(name.name.bytes()) {
        Some(number) => Ok(number),
        None => Err(ShapeError::Fault {
            at: name.at,
            kind: ShapeKind::Unknown,
        }),
    }
}

/// Adds a term with a sign.
#[tactic(auto, unfolding(crate::specs::Linears::term_in))]
fn add_term(
    scope: &Scope<'_>,
    sign: Sign,
    term: &IndexTerm,
    form: &mut Form,
) -> Result<(), ShapeError>
    ensures { Gives (λ _. form_of form.new) result (spec.term_in scope.now sign term.now (form_of form.old)) }
{
    match term {
        IndexTerm::Number(number, _) => form.add_constant(&signed(sign, number))?,
        IndexTerm::Product(number, name, _) => {
            let variable = known(scope, name)?;
            form.add_term(variable, &signed(sign, number))?;
        }
        IndexTerm::Variable(name) => {
            let variable = known(scope, name)?;
            form.add_term(variable, &signed(sign, &1))?;
        }
    }
    Ok(())
}

/// Adds the terms behind the first.
#[tactic(auto, unfolding(crate::specs::Linears::terms_in))]
fn add_terms(
    scope: &Scope<'_>,
    side: Sign,
    mut terms: &[(Sign, IndexTerm)],
    form: &mut Form,
) -> Result<(), ShapeError>
    ensures { Gives (λ _. form_of form.new) result (spec.terms_in scope.now side terms.entry.now (form_of form.old)) }
{
    while let [(sign, term), rest @ ..] = terms {
        add_term(scope, within(side, *sign), term, form)?;
        terms = rest;
    }
    Ok(())
}

/// Adds an index expression with a sign.
#[tactic(auto, unfolding(crate::specs::Linears::index_in))]
pub fn add_index(
    scope: &Scope<'_>,
    side: Sign,
    index: &IndexExpression,
    form: &mut Form,
) -> Result<(), ShapeError>
    ensures { Gives (λ _. form_of form.new) result (spec.index_in scope.now side (plain_index index.now) (form_of form.old)) }
{
    add_term(
        scope,
        within(side, first_sign(index.negative)),
        &index.first,
        form,
    )?;
    add_terms(scope, side, &index.rest, form)
}

/// The row that says that the one side, with this sign, and the other, with the opposite one, are at least 0 or 1.
#[tactic(auto, unfolding(crate::specs::Linears::row_in))]
fn row(
    alloc: Global,
    scope: &Scope<'_>,
    strict: bool,
    side: Sign,
    relation: &Relation,
) -> Result<Linear, ShapeError>
    ensures { Gives (λ x. x) result (spec.row_in scope.now strict side (plain_relation relation.now)) }
{
    let mut form = Form::new(alloc, strict);
    add_index(scope, side, &relation.left, &mut form)?;
    add_index(scope, opposite(side), &relation.right, &mut form)?;
    Ok(form.linear(alloc)?)
}

/// Adds a row of a relation.
fn push_row(
    alloc: Global,
    scope: &Scope<'_>,
    strict: bool,
    side: Sign,
    relation: &Relation,
    rows: &mut Vec<Linear>,
) -> Result<(), ShapeError>
    ensures { Gives (λ _. rows.new.items) result (spec.with_row scope.now strict side (plain_relation relation.now) rows.old.items) }
{
    rows.push(row(alloc, scope, strict, side, relation)?)?;
    Ok(())
}

/// Adds the rows of a relation.
#[tactic(auto, unfolding(crate::specs::Linears::relation_in))]
fn add_relation(
    alloc: Global,
    scope: &Scope<'_>,
    relation: &Relation,
    rows: &mut Vec<Linear>,
) -> Result<(), ShapeError>
    ensures { Gives (λ _. rows.new.items) result (spec.relation_in scope.now relation.now.relation (plain_relation relation.now) rows.old.items) }
{
    match relation.relation {
        IndexRelation::Less => push_row(alloc, scope, true, Sign::Minus, relation, rows),
        IndexRelation::AtMost => push_row(alloc, scope, false, Sign::Minus, relation, rows),
        IndexRelation::Greater => push_row(alloc, scope, true, Sign::Plus, relation, rows),
        IndexRelation::AtLeast => push_row(alloc, scope, false, Sign::Plus, relation, rows),
        IndexRelation::Equal => {
            push_row(alloc, scope, false, Sign::Plus, relation, rows)?;
            push_row(alloc, scope, false, Sign::Minus, relation, rows)
        }
    }
}

/// Adds the rows of relations.
#[tactic(auto, unfolding(crate::specs::Linears::relations_in))]
pub fn add_relations(
    alloc: Global,
    scope: &Scope<'_>,
    mut relations: &[Relation],
    rows: &mut Vec<Linear>,
) -> Result<(), ShapeError>
    ensures { Gives (λ _. rows.new.items) result (spec.relations_in scope.now (map plain_relation relations.entry.now) rows.old.items) }
{
    while let [relation, rest @ ..] = relations {
        add_relation(alloc, scope, relation, rows)?;
        relations = rest;
    }
    Ok(())
}
