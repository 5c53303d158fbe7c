//! The text of types, quantifiers, type lines and signatures.

ghost use Rattle.std.specs.Prelude.{◌≡◌, ◌++◌, OnOk};
ghost use Rattle.xan_lin.specs.Text.{form_text};
ghost use Rattle.dtal_code.specs.Spelling as spec;

use crate::lists::{Piece, put_joined};
use crate::pieces::{put, put_number};
use state_types::{Packed, Signature, Ty};
use xan_lin::{Form, Memory};

/// Appends a type.
#[tactic(auto, using(crate::proofs::Appended::appended))]
pub(crate) fn put_ty(out: &mut Vec<u8>, ty: &Ty) -> Result<(), Memory>
    ensures { OnOk result (out.new.items ≡ out.old.items ++ spec.ty_text ty.now) }
{
    match ty {
        Ty::Int(form) => put_int(out, form),
        Ty::Bool => put(out, b"bool"),
        Ty::Array(element, form) => put_array(out, *element, form),
        Ty::Named(number) => put_named(out, *number),
    }
}

#[tactic(auto, using(crate::proofs::Appended::appended))]
fn put_int(out: &mut Vec<u8>, form: &Form) -> Result<(), Memory>
    ensures { OnOk result (out.new.items ≡ out.old.items ++ spec.ty_text (Ty.Int form.now)) }
{
    put(out, b"int(")?;
    form.write_form(out)?;
    put(out, b")")
}

#[tactic(auto, using(crate::proofs::Appended::appended))]
fn put_array(out: &mut Vec<u8>, element: u32, form: &Form) -> Result<(), Memory>
    ensures { OnOk result (out.new.items ≡ out.old.items ++ spec.ty_text (Ty.Array element form.now)) }
{
    put(out, b"arr(")?;
    put_number(out, u64::from(element))?;
    put(out, b",")?;
    form.write_form(out)?;
    put(out, b")")
}

#[tactic(auto, using(crate::proofs::Appended::appended))]
fn put_named(out: &mut Vec<u8>, number: u32) -> Result<(), Memory>
    ensures { OnOk result (out.new.items ≡ out.old.items ++ spec.ty_text (Ty.Named number)) }
{
    put(out, b"tup(")?;
    put_number(out, u64::from(number))?;
    put(out, b")")
}

impl Piece for Ty {
    ghost text = { spec.ty_text };

    fn put_text(&self, out: &mut Vec<u8>) -> Result<(), Memory> {
        put_ty(out, self)
    }
}

impl Piece for Form {
    ghost text = { form_text };

    fn put_text(&self, out: &mut Vec<u8>) -> Result<(), Memory> {
        self.write_form(out)
    }
}

/// Appends types with a space between two.
pub(crate) fn put_types(out: &mut Vec<u8>, types: &[Ty]) -> Result<(), Memory>
    ensures { OnOk result (out.new.items ≡ out.old.items ++ spec.types_text types.now) }
{
    put_joined(out, b" ", types)
}

/// Appends a quantifier.
#[tactic(auto, using(crate::proofs::Appended::appended))]
pub(crate) fn put_quantifier(out: &mut Vec<u8>, vars: u32, rows: &[Form]) -> Result<(), Memory>
    ensures { OnOk result (out.new.items ≡ out.old.items ++ spec.quantifier_text vars rows.now) }
{
    put(out, b"{")?;
    put_number(out, u64::from(vars))?;
    put(out, b"|")?;
    put_joined(out, b";", rows)?;
    put(out, b"}")
}

impl Piece for Packed {
    ghost text = { spec.type_line };

    #[tactic(auto, using(crate::proofs::Appended::appended))]
    fn put_text(&self, out: &mut Vec<u8>) -> Result<(), Memory> {
        put(out, b"type ")?;
        put_quantifier(out, self.vars, self.rows.as_slice())?;
        put_kind(out, self.tuple)?;
        put_types(out, self.parts.as_slice())?;
        put(out, b"\n")
    }
}

fn put_kind(out: &mut Vec<u8>, tuple: bool) -> Result<(), Memory>
    ensures { OnOk result (out.new.items ≡ out.old.items ++ spec.kind_text tuple) }
{
    if tuple {
        put(out, b" tuple ")
    } else {
        put(out, b" cell ")
    }
}

/// Appends a signature.
#[tactic(auto, using(crate::proofs::Appended::appended))]
pub(crate) fn put_signature(out: &mut Vec<u8>, sig: &Signature) -> Result<(), Memory>
    ensures { OnOk result (out.new.items ≡ out.old.items ++ spec.signature_text sig.now) }
{
    put_quantifier(out, sig.vars, sig.rows.as_slice())?;
    put(out, b" (")?;
    put_types(out, sig.params.as_slice())?;
    put(out, b") ")?;
    put_quantifier(out, sig.result_vars, sig.result_rows.as_slice())?;
    put(out, b" ")?;
    put_ty(out, &sig.result)
}
