//! The rows that a target demands.

ghost use Rattle.std.specs.Prelude.{◌≡◌, []};
ghost use Rattle.xan_lin.specs.Subst.{VariablesRise};
ghost use Rattle.state_types.specs.Answers.{Gives};
ghost use Rattle.state_types.specs.Matching as spec;
ghost use Rattle.state_types.specs.Types.{index_of};

use crate::error::StateError;
use crate::pairs::Pair;
use std::alloc::Global;
use xan_lin::Form;

// Puts both differences behind the others, unless the forms are equal.
#[tactic(auto, unfolding(crate::specs::Matching::differences))]
fn push_differences(made: &mut Vec<Form>, wanted: &Form, present: &Form) -> Result<(), StateError>
    ensures { Gives (λ _. made.new.items) result (spec.differences wanted.now present.now made.old.items) }
{
    if wanted.is_same(present) {
        return Ok(());
    }
    let more = wanted.sub(present)?;
    let less = present.sub(wanted)?;
    made.push(more)?;
    made.push(less)?;
    Ok(())
}

// Puts the rows of a pair behind the others.
#[tactic(auto, unfolding(crate::specs::Matching::index_rows))]
fn push_pair(
    made: &mut Vec<Form>,
    pair: &Pair,
    values: &[(u32, Form)],
    below: u32,
) -> Result<(), StateError>
    requires { VariablesRise 0 values.now }
    ensures { Gives (λ _. made.new.items) result
        (spec.index_rows values.now below (index_of pair.now.wanted) (index_of pair.now.present) made.old.items) }
{
    let Some(wanted) = pair.wanted.index() else {
        return Ok(());
    };
    let Some(present) = pair.present.index() else {
        return Ok(());
    };
    let given = wanted.subst(values, below)?;
    push_differences(made, &given, present)
}

// The rows of all pairs.
#[tactic(auto, unfolding(crate::specs::Matching::type_rows))]
fn type_rows(
    alloc: Global,
    values: &[(u32, Form)],
    below: u32,
    mut pairs: &[Pair],
) -> Result<Vec<Form>, StateError>
    requires { VariablesRise 0 values.now }
    ensures { Gives (λ rows. rows.items) result (spec.type_rows values.now below pairs.entry.now []) }
{
    let mut made = Vec::new(alloc);
    while let [pair, later @ ..] = pairs {
        push_pair(&mut made, pair, values, below)?;
        pairs = later;
    }
    Ok(made)
}

// Puts the target's own rows behind the others.
#[tactic(auto, unfolding(crate::specs::Matching::own_rows))]
fn push_own(
    made: &mut Vec<Form>,
    values: &[(u32, Form)],
    below: u32,
    mut rows: &[Form],
) -> Result<(), StateError>
    requires { VariablesRise 0 values.now }
    ensures { Gives (λ _. made.new.items) result (spec.own_rows values.now below rows.entry.now made.old.items) }
{
    while let [row, later @ ..] = rows {
        let given = row.subst(values, below)?;
        made.push(given)?;
        rows = later;
    }
    Ok(())
}

/// The rows that make the pairs fit and the target's own rows hold.
#[tactic(auto, unfolding(crate::specs::Matching::demanded))]
pub(crate) fn demanded(
    alloc: Global,
    values: &[(u32, Form)],
    below: u32,
    pairs: &[Pair],
    rows: &[Form],
) -> Result<Vec<Form>, StateError>
    requires { VariablesRise 0 values.now }
    ensures { Gives (λ made. made.items) result (spec.demanded values.now below pairs.now rows.now) }
{
    let mut made = type_rows(alloc, values, below, pairs)?;
    push_own(&mut made, values, below, rows)?;
    Ok(made)
}
