//! The signatures of a program's functions, and its first function.

ghost use Rattle.std.specs.Prelude.{◌≡◌, ◌≤◌, ◌<◌, ◌&&◌, ◌∷◌, [], length, map, take, drop, IfOk, codes, bytes_eq, option_map, IsSome};
ghost use Rattle.std.specs.List.{list_all, list_any};
ghost use Rattle.dtal_code.specs.Declarations as spec;
ghost use Rattle.dtal_code.specs.Refusing.{signatures_walked};
ghost use Rattle.dtal_code.specs.Verdicts.{at_place};
ghost use Rattle.dtal_code.specs.declared.refusal.Where.TheVariants as where_is;
ghost use Rattle.dtal_verifier.specs.Code.{Passes};
ghost use Rattle.dtal_verifier.specs.Views.{table_with};
ghost use Rattle.dtal_verifier.specs.Walks.{signature_by};
ghost use Rattle.instruction_checks.specs.Code.{Gives};

use crate::alone::are_alone;
use crate::error::{VerifyError, locate};
use crate::function_names::FunctionNames;
use crate::presence::{type_exists, types_exist};
use crate::types::are_few;
use dtal_code::{DtalProgram, Function, Rule, Where};
use instruction_checks::{Broken, asks, rows_below, type_below, types_below};
use state_types::{Packed, Signature, Ty};
use std::alloc::Global;
use xan_lin::Memory;

// Whether what the signature's types name is there.
fn is_there(types: &[Packed], sig: &Signature) -> bool
    ensures { result ≡ spec.types_exist (table_with types.now) (sig.now.result ∷ sig.now.params) }
{
    type_exists(types, &sig.result) && types_exist(types, sig.params.as_slice())
}

// Whether its variables are indices of its parameters, and those of its result of the result.
fn has_indices(sig: &Signature) -> bool
    ensures { result ≡ (spec.are_alone 0 sig.now.vars sig.now.params && spec.are_alone sig.now.vars sig.now.result_vars (sig.now.result ∷ [])) }
{
    let result = [sig.result.copy()];
    are_alone(0, sig.vars, sig.params.as_slice()) && are_alone(sig.vars, sig.result_vars, &result)
}

// Whether it names only its own variables.
#[tactic(auto, unfolding(dtal_code::specs::Declarations::names_own))]
fn names_own(sig: &Signature) -> bool
    ensures { result ≡ spec.names_own sig.now }
{
    let vars = u64::from(sig.vars);
    let all = vars + u64::from(sig.result_vars);
    rows_below(sig.rows.as_slice(), vars)
        && types_below(sig.params.as_slice(), vars)
        && rows_below(sig.result_rows.as_slice(), all)
        && type_below(&sig.result, all)
}

// Whether its variables and rows are few.
fn is_few(sig: &Signature) -> bool
    ensures { result ≡ (spec.are_few sig.now.vars sig.now.rows && spec.are_few sig.now.result_vars sig.now.result_rows) }
{
    are_few(sig.vars, sig.rows.as_slice()) && are_few(sig.result_vars, sig.result_rows.as_slice())
}

// What is asked of a function's signature.
#[tactic(auto, unfolding(crate::specs::Walks::signature_by))]
fn check_signature(types: &[Packed], is_new: bool, fun: &Function) -> Result<(), Broken>
    ensures { Gives (λ _. tt) result (signature_by is_new (table_with types.now) fun.now) }
{
    asks(is_new, Rule::Name)?;
    asks(is_there(types, &fun.sig), Rule::NoType)?;
    asks(has_indices(&fun.sig), Rule::Alone)?;
    asks(names_own(&fun.sig), Rule::Form)?;
    asks(is_few(&fun.sig), Rule::Size)
}

// The same of the function of a number among all, told with it.
#[tactic(auto, using(crate::proofs::RefusedPlaces::place_fails))]
fn check_signature_at(
    types: &[Packed],
    is_new: bool,
    fun: &Function,
    number: u32,
) -> Result<(), VerifyError>
    ensures { Passes (λ _. tt) result (at_place (where_is.Signature number) (signature_by is_new (table_with types.now) fun.now)) }
{
    match check_signature(types, is_new, fun) {
        Ok(()) => Ok(()),
        Err(broken) => Err(locate(broken, Where::Signature(number))),
    }
}

/// What is asked of all signatures.
#[tactic(auto, unfolding(dtal_code::specs::Refusing::signatures_walked))]
pub(crate) fn check_signatures(
    alloc: Global,
    types: &[Packed],
    funs: &[Function],
) -> Result<(), VerifyError>
    requires { length funs.now ≤ 4294967295 }
    ensures { Passes (λ _. tt) result (signatures_walked (table_with types.now) 0 [] funs.now) }
{
    let mut names = FunctionNames::new(alloc);
    let mut number = 0usize;
    while number < funs.len() {
        let fun = &funs[number];
        let is_new = names.add(fun.name.bytes())?;
        check_signature_at(types, is_new, fun, number as u32)?;
        number += 1;
    }
    Ok(())
}

/// The signatures of functions.
pub(crate) fn signatures_of(alloc: Global, funs: &[Function]) -> Result<Vec<Signature>, Memory>
    ensures { IfOk result (λ sigs. sigs.items ≡ map (λ fun. fun.sig) funs.now) }
{
    let mut made = Vec::new(alloc);
    for fun in funs {
        let Ok(()) = made.push(fun.sig.copy(alloc)?) else {
            return Err(Memory);
        };
    }
    Ok(made)
}

// Whether the function is `main`.
fn is_main(fun: &Function) -> bool
    ensures { result ≡ bytes_eq fun.now.name (codes "main") }
{
    fun.name.bytes() == b"main".as_slice()
}

// The function with which a run begins.
#[tactic(auto, using(crate::proofs::SignaturesTurns::main_kept), unfolding(dtal_code::specs::Declarations::main_of))]
fn main_of(mut funs: &[Function]) -> Option<&Function>
    ensures { option_map (λ fun. fun.now) result ≡ option_map (λ main. main.1) (spec.main_of funs.entry.now) }
{
    while let [fun, later @ ..] = funs {
        if is_main(fun) {
            return Some(fun);
        }
        funs = later;
    }
    None
}

// Whether it is of the kinds of arguments, of which an array has numbers.
fn is_argument(ty: &Ty) -> bool
    ensures { result ≡ spec.is_argument_kind ty.now }
{
    match ty {
        Ty::Int(_) | Ty::Bool => true,
        Ty::Array(element, _) => *element == 0,
        Ty::Named(_) => false,
    }
}

// Whether it is of the kind of an answer.
fn is_answer(ty: &Ty) -> bool
    ensures { result ≡ spec.is_answer_kind ty.now }
{
    match ty {
        Ty::Int(_) => true,
        Ty::Bool | Ty::Array(_, _) | Ty::Named(_) => false,
    }
}

// Whether all of these are of the kinds of arguments.
fn are_arguments(types: &[Ty]) -> bool
    ensures { result ≡ list_all spec.is_argument_kind types.now }
{
    types.iter().all(|ty| is_argument(ty))
}

// What is asked of the program.
#[tactic(auto, unfolding(dtal_code::specs::Declarations::program_verdict))]
fn check_main(program: &DtalProgram) -> Result<(), Broken>
    ensures { Gives (λ _. tt) result (spec.program_verdict program.now) }
{
    let Some(main) = main_of(program.funs.as_slice()) else {
        return Err(Broken::Rule(Rule::Main));
    };
    asks(
        are_arguments(main.sig.params.as_slice()) && is_answer(&main.sig.result),
        Rule::Main,
    )
}

/// The same, told with the place.
#[tactic(auto, using(crate::proofs::RefusedPlaces::place_fails))]
pub(crate) fn check_program(program: &DtalProgram) -> Result<(), VerifyError>
    ensures { Passes (λ _. tt) result (at_place where_is.Program (spec.program_verdict program.now)) }
{
    match check_main(program) {
        Ok(()) => Ok(()),
        Err(broken) => Err(locate(broken, Where::Program)),
    }
}
