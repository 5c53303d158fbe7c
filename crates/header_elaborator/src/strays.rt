//! What no core has, as tests: terms or listed variables that do not rise, and forms that name variables which are not there.

ghost use Rattle.std.specs.Prelude.{◌≡◌, ◌≢◌, ◌↔◌, ◌≤◌, suc, pos, true, IfOk, IsTrue};
ghost use Rattle.std.specs.List.{list_all};
ghost use Rattle.header_elaborator.specs.Code.{Gives};
ghost use Rattle.typed_core.specs.Joins.{stated};
ghost use Rattle.typed_core.specs.Limits.{held};
ghost use Rattle.typed_core.specs.Strays as spec;
ghost use Rattle.xan_lin.specs.Linear.{NamesBelow};
ghost use Rattle.xan_lin.specs.Subst.{VariablesRise};
ghost use Rattle.xanadu_tree.specs.IndexRules.{AreRising};

use crate::error::Stop;
use state_types::{Packed, Ty};
use xan_lin::{Form, TooLarge};
use xanadu_tree::{Clause, CoreTy, Linear};

/// Whatever holds of every core holds.
pub fn hold(test: bool) -> Result<(), Stop>
    ensures held { Gives (λ _. tt) result (held test) }
    ensures holds { IfOk result (λ _. test ≡ true) }
{
    if test { Ok(()) } else { Err(Stop::Stray) }
}

/// The least variable that may come behind this one.
fn after(var: u32) -> u64
    ensures { result ≡ suc var }
{
    u64::from(var) + 1
}

/// Whether the term stands where `low` is the least variable to come, and is not 0.
fn is_next(low: u64, term: &(i128, u32)) -> bool
    ensures { IsTrue result ↔ ((low ≤ term.now.1) × (term.now.0 ≢ pos 0)) }
{
    low <= u64::from(term.1) && term.0 != 0
}

/// Whether the variables of the terms rise, and none is 0.
fn are_rising(mut terms: &[(i128, u32)]) -> bool
    ensures { IsTrue result ↔ AreRising 0 terms.entry.now }
{
    let mut low = 0;
    while let [term, later @ ..] = terms {
        if !is_next(low, term) {
            return false;
        }
        low = after(term.1);
        terms = later;
    }
    true
}

/// Whether the terms of the form rise.
pub(crate) fn form_rises(form: &Linear) -> bool
    ensures { result ≡ spec.form_rises form.now }
{
    are_rising(form.terms.as_slice())
}

/// Whether those of the type's index do.
pub(crate) fn type_rises(ty: &CoreTy) -> bool
    ensures { result ≡ spec.type_rises ty.now }
{
    match ty {
        CoreTy::Int(form) | CoreTy::Array(_, form) => form_rises(form),
        CoreTy::Bool | CoreTy::Named(_) => true,
    }
}

/// Whether those of all forms do.
fn forms_rise(mut forms: &[Linear]) -> bool
    ensures { result ≡ list_all spec.form_rises forms.entry.now }
{
    while let [form, later @ ..] = forms {
        if !form_rises(form) {
            return false;
        }
        forms = later;
    }
    true
}

/// Whether those of all stated types do.
fn stated_rise(mut stated: &[(u32, CoreTy)]) -> bool
    ensures { result ≡ list_all (λ s. spec.type_rises s.1) stated.entry.now }
{
    while let [one, later @ ..] = stated {
        if !type_rises(&one.1) {
            return false;
        }
        stated = later;
    }
    true
}

/// Whether those of a clause do.
pub fn clause_rises(clause: &Option<Clause>) -> bool
    ensures { result ≡ spec.clause_rises (stated clause.now) }
{
    match clause {
        Some(clause) => {
            let rows = forms_rise(clause.quant.rows.as_slice());
            let types = stated_rise(clause.vars.as_slice());
            rows && types
        }
        None => true,
    }
}

/// Whether the variable is at least the next to come.
fn is_from(low: u64, var: u32) -> bool
    ensures { IsTrue result ↔ (low ≤ var) }
{
    low <= u64::from(var)
}

/// Whether the listed variables rise.
fn rise(mut values: &[(u32, Form)]) -> bool
    ensures { IsTrue result ↔ VariablesRise 0 values.entry.now }
{
    let mut low = 0;
    while let [value, later @ ..] = values {
        if !is_from(low, value.0) {
            return false;
        }
        low = after(value.0);
        values = later;
    }
    true
}

/// The same as a test.
pub fn values_rise(values: &[(u32, Form)]) -> bool
    ensures { result ≡ spec.values_rise 0 values.now }
{
    rise(values)
}

/// Whether the form names only variables less than `vars`.
fn names_below(form: &Form, vars: u32) -> bool
    ensures { IsTrue result ↔ NamesBelow vars form.now }
{
    form.terms().iter().all(|term| term.var < vars)
}

/// The same as a test.
pub(crate) fn form_below(form: &Form, vars: u32) -> bool
    ensures { result ≡ spec.form_below vars form.now }
{
    names_below(form, vars)
}

/// Whether all these forms do.
pub fn forms_below(mut forms: &[Form], vars: u32) -> bool
    ensures { result ≡ list_all (spec.form_below vars) forms.entry.now }
{
    while let [form, later @ ..] = forms {
        if !form_below(form, vars) {
            return false;
        }
        forms = later;
    }
    true
}

/// Whether the row does, where it is within the bounds.
fn row_below(row: &Result<Form, TooLarge>, vars: u32) -> bool
    ensures { result ≡ spec.row_below vars row.now }
{
    match row {
        Ok(row) => form_below(row, vars),
        Err(_) => true,
    }
}

/// Whether all these rows do.
pub fn rows_below(mut rows: &[Result<Form, TooLarge>], vars: u32) -> bool
    ensures { result ≡ list_all (spec.row_below vars) rows.entry.now }
{
    while let [row, later @ ..] = rows {
        if !row_below(row, vars) {
            return false;
        }
        rows = later;
    }
    true
}

/// Whether the type's index does.
fn type_below(ty: &Ty, vars: u32) -> bool
    ensures { result ≡ spec.type_below vars ty.now }
{
    match ty {
        Ty::Int(form) | Ty::Array(_, form) => form_below(form, vars),
        Ty::Bool | Ty::Named(_) => true,
    }
}

/// Whether those of all these types do.
pub fn types_below(mut types: &[Ty], vars: u32) -> bool
    ensures { result ≡ list_all (spec.type_below vars) types.entry.now }
{
    while let [ty, later @ ..] = types {
        if !type_below(ty, vars) {
            return false;
        }
        types = later;
    }
    true
}

/// Whether a closed type names only its own variables.
pub(crate) fn is_closed(packed: &Packed) -> bool
    ensures { result ≡ spec.is_closed packed.now }
{
    let rows = forms_below(packed.rows.as_slice(), packed.vars);
    let parts = types_below(packed.parts.as_slice(), packed.vars);
    rows && parts
}
