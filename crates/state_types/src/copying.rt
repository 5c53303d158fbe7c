//! Copies of lists.

ghost use Rattle.std.specs.Prelude.{◌≡◌, IfOk};

use crate::types::Ty;
use std::alloc::Global;
use xan_lin::{Form, Memory};
use xan_seq::Seq;

// The same forms in a list of their own.
pub(crate) fn copied_forms(alloc: Global, forms: &[Form]) -> Result<Seq<Form>, Memory>
    ensures { IfOk result (λ copied. copied ≡ forms.now) }
{
    let mut copied = Vec::new(alloc);
    for form in forms {
        let Ok(()) = copied.push(form.copy()) else {
            return Err(Memory);
        };
    }
    Ok(Seq::from_vec(copied))
}

// The same types in a list of their own.
pub(crate) fn copied_types(alloc: Global, types: &[Ty]) -> Result<Seq<Ty>, Memory>
    ensures { IfOk result (λ copied. copied ≡ types.now) }
{
    let mut copied = Vec::new(alloc);
    for ty in types {
        let Ok(()) = copied.push(ty.copy()) else {
            return Err(Memory);
        };
    }
    Ok(Seq::from_vec(copied))
}
