//! Which types are there, as tests.

ghost use Rattle.std.specs.Prelude.{◌≡◌, nat_lt, length, slice_get, ◌∷◌};
ghost use Rattle.dtal_code.specs.Declarations as spec;
ghost use Rattle.dtal_verifier.specs.Views.{table_with};

use state_types::{Packed, Ty};

// The numbers of the types that no text writes are below this one.
const FIRST_WRITTEN: u32 = 2;

// Whether there is a type of this number.
fn is_type(types: &[Packed], number: u32) -> bool
    ensures { result ≡ nat_lt number (length (table_with types.now)) }
{
    if number < FIRST_WRITTEN {
        return true;
    }
    ((number - FIRST_WRITTEN) as usize) < types.len()
}

// Whether there is a tuple type of this number.
fn is_tuple(types: &[Packed], number: u32) -> bool
    ensures { result ≡ spec.is_tuple (slice_get (table_with types.now) number) }
{
    if number < FIRST_WRITTEN {
        return false;
    }
    match types.get((number - FIRST_WRITTEN) as usize) {
        Some(packed) => packed.tuple,
        None => false,
    }
}

/// Whether what the type names is there, where these types are written.
pub(crate) fn type_exists(types: &[Packed], ty: &Ty) -> bool
    ensures { result ≡ spec.type_exists (table_with types.now) ty.now }
{
    match ty {
        Ty::Int(_) | Ty::Bool => true,
        Ty::Array(element, _) => is_type(types, *element),
        Ty::Named(number) => is_tuple(types, *number),
    }
}

/// Whether it is for all these types.
pub(crate) fn types_exist(types: &[Packed], all: &[Ty]) -> bool
    ensures { result ≡ spec.types_exist (table_with types.now) all.now }
{
    all.iter().all(|ty| type_exists(types, ty))
}

/// Whether it is for the types of all these places.
pub(crate) fn entries_exist(types: &[Packed], mut entries: &[(u16, Ty)]) -> bool
    ensures { result ≡ spec.types_exist (table_with types.now) (spec.typed_types entries.entry.now) }
{
    while let [entry, later @ ..] = entries {
        if !type_exists(types, &entry.1) {
            return false;
        }
        entries = later;
    }
    true
}
