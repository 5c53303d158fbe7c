//! Which variables are named, as tests.

ghost use Rattle.std.specs.Prelude.{◌≡◌, nat_lt};
ghost use Rattle.std.specs.List.{list_all};
ghost use Rattle.dtal_code.specs.Declarations as spec;

use state_types::Ty;
use xan_lin::Form;

/// Whether the form names only variables below a number.
pub(crate) fn form_below(form: &Form, vars: u64) -> bool
    ensures { result ≡ spec.form_is_below vars form.now }
{
    form.terms().iter().all(|term| u64::from(term.var) < vars)
}

/// Whether all these rows do.
pub fn rows_below(rows: &[Form], vars: u64) -> bool
    ensures { result ≡ spec.rows_are_below vars rows.now }
{
    rows.iter().all(|row| form_below(row, vars))
}

/// Whether the type's index does.
pub fn type_below(ty: &Ty, vars: u64) -> bool
    ensures { result ≡ spec.type_is_below vars ty.now }
{
    match ty {
        Ty::Int(form) | Ty::Array(_, form) => form_below(form, vars),
        Ty::Bool | Ty::Named(_) => true,
    }
}

/// Whether those of all these types do.
pub fn types_below(types: &[Ty], vars: u64) -> bool
    ensures { result ≡ spec.types_are_below vars types.now }
{
    types.iter().all(|ty| type_below(ty, vars))
}

/// Whether those of the types of all these places do.
pub fn entries_below(mut entries: &[(u16, Ty)], vars: u64) -> bool
    ensures { result ≡ spec.types_are_below vars (spec.typed_types entries.entry.now) }
{
    while let [entry, later @ ..] = entries {
        if !type_below(&entry.1, vars) {
            return false;
        }
        entries = later;
    }
    true
}
