//! Forms and types of a core, whose numbers are of any size, as those within the bounds.

ghost use Rattle.std.specs.Prelude.{◌≡◌, ◌+◌, ◌≤◌, ◌++◌, [], true, false, None, Ok, IfOk, IfSome, map, length};
ghost use Rattle.header_elaborator.specs.Code.{Gives, and_then};
ghost use Rattle.operation_rules.specs.Forms.{variables_from};
ghost use Rattle.state_types.specs.Types.{subst_ty};
ghost use Rattle.state_types.specs.declared.types.Ty.TheVariants as variant;
ghost use Rattle.typed_core.specs.Forms as spec;
ghost use Rattle.typed_core.specs.Limits.{needed};
ghost use Rattle.typed_core.specs.Strays.{form_rises, type_rises, values_rise};
ghost use Rattle.xan_lin.specs.Linear.{is_within, all_within, sized, variable_form};
ghost use Rattle.xan_lin.specs.Subst.{subst_of};
ghost use Rattle.xanadu_tree.specs.IndexRules.{AreRising};

use crate::error::{Failure, Stop};
use crate::strays::{form_rises, hold, type_rises};
use arrayvec::ArrayVec;
use state_types::{Ty, subst_type};
use std::alloc::Global;
use xan_lin::{Form, Term, TooLarge};
use xanadu_tree::{CoreTy, Linear};

/// The most terms that a form has.
const MOST_TERMS: usize = 16;

/// An exact form or type, or by which bound it is too large.
pub type Exact<T> = Result<T, TooLarge>;

/// The number, where it is one of 64 bits.
fn narrowed(number: &i128) -> Option<i64>
    ensures found { IfSome result (λ narrow. narrow ≡ number.now) }
    ensures none { result ≡ None → is_within number.now ≡ false }
{
    match i64::try_from(*number) {
        Ok(narrow) => Some(narrow),
        Err(_) => None,
    }
}

/// The terms, of which there are at most 16, where their numbers are of 64 bits.
fn narrowed_terms(mut terms: &[(i128, u32)]) -> Option<ArrayVec<Term, MOST_TERMS>>
    requires { length terms.now ≤ 16 }
    ensures found { IfSome result (λ narrow. narrow.items ≡ map spec.term_of terms.entry.now) }
    ensures none { result ≡ None → all_within (map spec.term_of terms.entry.now) ≡ false }
{
    let mut narrow = ArrayVec::<Term, MOST_TERMS>::new();
    while let [term, later @ ..] = terms {
        let Some(coef) = narrowed(&term.0) else {
            return None;
        };
        narrow.push(Term { var: term.1, coef });
        terms = later;
    }
    Some(narrow)
}

/// The form of terms that rise and a constant.
#[tactic(auto, using(crate::proofs::FormFacts::narrow_many, crate::proofs::FormFacts::narrow_large_terms, crate::proofs::FormFacts::narrow_large_constant, crate::proofs::FormFacts::narrow_made))]
fn narrowed_form(terms: &[(i128, u32)], constant: &i128) -> Exact<Form>
    requires { AreRising 0 terms.now }
    ensures { result ≡ sized (map spec.term_of terms.now) constant.now }
{
    if terms.len() > MOST_TERMS {
        return Err(TooLarge::Terms);
    }
    let Some(terms) = narrowed_terms(terms) else {
        return Err(TooLarge::Magnitude);
    };
    let Some(constant) = narrowed(constant) else {
        return Err(TooLarge::Magnitude);
    };
    Form::from_terms(terms.as_slice(), constant)
}

/// The form, where it is within the bounds.
#[tactic(auto, using(crate::proofs::StrayTests::rising_of))]
fn form_of(form: &Linear) -> Exact<Form>
    requires { form_rises form.now ≡ true }
    ensures { result ≡ spec.form_of form.now }
{
    narrowed_form(form.terms.as_slice(), &form.constant)
}

/// A number with this value.
fn int_of(index: Exact<Form>) -> Exact<Ty>
    ensures { result ≡ and_then index (λ form. Ok (variant.Int form)) }
{
    Ok(Ty::Int(index?))
}

/// An array of this length.
fn array_of(element: u32, index: Exact<Form>) -> Exact<Ty>
    ensures { result ≡ and_then index (λ form. Ok (variant.Array element form)) }
{
    Ok(Ty::Array(element, index?))
}

/// The type, where its index is within the bounds.
#[tactic(auto, unfolding(typed_core::specs::Forms::type_of))]
fn type_of(ty: &CoreTy) -> Exact<Ty>
    requires { type_rises ty.now ≡ true }
    ensures { result ≡ spec.type_of ty.now }
{
    match ty {
        CoreTy::Int(index) => int_of(form_of(index)),
        CoreTy::Bool => Ok(Ty::Bool),
        CoreTy::Array(element, index) => array_of(*element, form_of(index)),
        CoreTy::Named(number) => Ok(Ty::Named(*number)),
    }
}

/// The form, which is needed.
fn needed_form(form: &Linear) -> Result<Form, Stop>
    requires { form_rises form.now ≡ true }
    ensures { Gives (λ form. form) result (needed (spec.form_of form.now)) }
{
    Ok(form_of(form)?)
}

/// The type, which is needed.
pub(crate) fn needed_type(ty: &CoreTy) -> Result<Ty, Stop>
    requires { type_rises ty.now ≡ true }
    ensures { Gives (λ ty. ty) result (needed (spec.type_of ty.now)) }
{
    Ok(type_of(ty)?)
}

/// Forms in order.
#[tactic(auto, unfolding(typed_core::specs::Forms::forms_from))]
pub(crate) fn forms_from(alloc: Global, mut forms: &[Linear]) -> Result<Vec<Form>, Stop>
    ensures { Gives (λ made. made.items) result (spec.forms_from forms.entry.now []) }
{
    let mut made = Vec::new(alloc);
    while let [form, later @ ..] = forms {
        hold(form_rises(form))?;
        made.push(needed_form(form)?)?;
        forms = later;
    }
    Ok(made)
}

/// Types in order.
#[tactic(auto, unfolding(typed_core::specs::Forms::types_from))]
pub(crate) fn types_from(alloc: Global, mut types: &[CoreTy]) -> Result<Vec<Ty>, Stop>
    ensures { Gives (λ made. made.items) result (spec.types_from types.entry.now []) }
{
    let mut made = Vec::new(alloc);
    while let [ty, later @ ..] = types {
        hold(type_rises(ty))?;
        made.push(needed_type(ty)?)?;
        types = later;
    }
    Ok(made)
}

/// The form in which variables are replaced.
#[tactic(auto, using(crate::proofs::StrayTests::test_values))]
fn replaced(form: Exact<Form>, naming: &[(u32, Form)], own: u32) -> Exact<Form>
    requires { values_rise 0 naming.now ≡ true }
    ensures { result ≡ and_then form (subst_of naming.now own) }
{
    form?.subst(naming, own)
}

/// The type in which variables are replaced.
#[tactic(auto, using(crate::proofs::StrayTests::test_values))]
fn replaced_type(ty: Exact<Ty>, naming: &[(u32, Form)], own: u32) -> Exact<Ty>
    requires { values_rise 0 naming.now ≡ true }
    ensures { result ≡ and_then ty (subst_ty naming.now own) }
{
    subst_type(&ty?, naming, own)
}

/// A form over index variables of the core as one over those of a state: those below `own` are themselves, and the others are listed.
#[tactic(auto, unfolding(typed_core::specs::Forms::renamed))]
pub fn renamed(naming: &[(u32, Form)], own: u32, form: &Linear) -> Exact<Form>
    requires naming { values_rise 0 naming.now ≡ true }
    requires form { form_rises form.now ≡ true }
    ensures { result ≡ spec.renamed naming.now own form.now }
{
    replaced(form_of(form), naming, own)
}

/// The same of a type.
#[tactic(auto, unfolding(typed_core::specs::Forms::renamed_type))]
pub fn renamed_type(naming: &[(u32, Form)], own: u32, ty: &CoreTy) -> Exact<Ty>
    requires naming { values_rise 0 naming.now ≡ true }
    requires ty { type_rises ty.now ≡ true }
    ensures { result ≡ spec.renamed_type naming.now own ty.now }
{
    replaced_type(type_of(ty), naming, own)
}

/// The number so many behind another one. Numbers past 32 bits are as want of memory: a core has fewer index variables.
fn behind(number: u32, count: u32) -> Result<u32, Failure>
    ensures { IfOk result (λ sum. sum ≡ number + count) }
{
    match number.checked_add(count) {
        Some(sum) => Ok(sum),
        None => Err(Failure),
    }
}

/// The variable that a number means in its turn.
fn entry_of(number: u32, first: u32, turn: u32) -> Result<(u32, Form), Failure>
    requires first { first ≤ 1024 }
    requires turn { turn ≤ 1024 }
    ensures { IfOk result (λ entry. entry ≡ (number + turn, variable_form (first + turn))) }
{
    Ok((behind(number, turn)?, Form::variable(first + turn)))
}

/// Lists so many numbers from `number` on, each of which means the variable from `first` on in its turn, behind the values so far.
pub fn push_variables(
    values: &mut Vec<(u32, Form)>,
    number: u32,
    first: u32,
    count: u32,
) -> Result<(), Failure>
    requires first { first ≤ 1024 }
    requires count { count ≤ 1024 }
    ensures { IfOk result (λ _. values.new.items ≡ values.old.items ++ variables_from number first count) }
{
    for turn in 0..count {
        values.push(entry_of(number, first, turn)?)?;
    }
    Ok(())
}
