//! The first fault of the arguments of a run.

ghost use Rattle.std.specs.Prelude.{◌≡◌, ◌+◌, ◌<◌, ◌≤◌, ◌^◌, All, None, Some, IfOk, length, option_map};
ghost use Rattle.operation_rules.specs.Entry as spec;
ghost use Rattle.state_types.specs.Types.{index_of, TypeBelow};
ghost use Rattle.xan_lin.specs.Linear.{NamesBelow};
ghost use Rattle.xan_io.specs.Entry.{ArgKind, ArgIndex, EntryRow};
ghost use Rattle.argument_checks.specs.Checking.{HasNoFault, IsRunSignature};

use crate::error::ArgumentError;
use state_types::{Signature, Ty};
use std::alloc::{AllocError, Global};
use xan_io::Arg;
use xan_lin::Form;

// Whether the argument is of the parameter's kind.
fn is_of_kind(arg: &Arg, ty: &Ty) -> bool
    ensures { result ≡ spec.is_of_kind arg.now ty.now }
{
    match (arg, ty) {
        (Arg::Int(_), Ty::Int(_)) | (Arg::Bool(_), Ty::Bool) | (Arg::Array(_), Ty::Array(_, _)) => {
            true
        }
        _ => false,
    }
}

// The number of the first argument of another kind than its parameter.
#[tactic(auto, unfolding(operation_rules::specs::Entry::kind_fault))]
fn find_kind(mut args: &[Arg], mut params: &[Ty]) -> Option<u32>
    requires few { length args.now < 2 ^ 31 }
    requires many { length args.now ≡ length params.now }
    ensures { spec.kind_fault 1 args.entry.now params.entry.now ≡ option_map ArgKind result }
{
    let mut number: u32 = 1;
    'each: while let [arg, more_args @ ..] = args {
        let [ty, more_params @ ..] = params else {
            return None;
        };
        if !is_of_kind(arg, ty) {
            return Some(number);
        }
        number += 1;
        args = more_args;
        params = more_params;
    }
    None
}

// The index of an argument: a number, or a length.
fn index_value(arg: &Arg) -> i64
    ensures { result ≡ spec.index_value arg.now }
{
    match arg {
        Arg::Int(number) => *number,
        Arg::Bool(_) => 0,
        Arg::Array(cells) => cells.as_slice().len() as i64,
    }
}

// Whether the index of the type is the variable alone.
fn is_variable(var: u32, ty: &Ty) -> bool
    ensures { result ≡ spec.is_variable var (index_of ty.now) }
{
    match ty.index() {
        Some(index) => index.is_same(&Form::variable(var)),
        None => false,
    }
}

// The value of a variable: that of the first parameter whose index it is alone.
#[tactic(auto, unfolding(operation_rules::specs::Entry::variable_value))]
fn variable_value(var: u32, mut args: &[Arg], mut params: &[Ty]) -> i64
    ensures { result ≡ spec.variable_value var args.entry.now params.entry.now }
{
    'each: while let [arg, more_args @ ..] = args {
        let [ty, more_params @ ..] = params else {
            return 0;
        };
        if is_variable(var, ty) {
            return index_value(arg);
        }
        args = more_args;
        params = more_params;
    }
    0
}

// The values of so many variables.
#[tactic(auto, unfolding(operation_rules::specs::Entry::variable_values))]
fn variable_values(
    alloc: Global,
    vars: u32,
    args: &[Arg],
    params: &[Ty],
) -> Result<Vec<i64>, AllocError>
    ensures values { IfOk result (λ values. values.items ≡ spec.variable_values 0 vars args.now params.now) }
    ensures count { IfOk result (λ values. length values.items ≡ vars) }
{
    let mut values = Vec::new(alloc);
    let mut var: u32 = 0;
    'each: while var < vars {
        values.push(variable_value(var, args, params))?;
        var += 1;
    }
    Ok(values)
}

// Whether the argument's index is the value of the parameter's.
fn has_index(values: &[i64], arg: &Arg, ty: &Ty) -> bool
    requires { TypeBelow (length values.now) ty.now }
    ensures { result ≡ spec.has_index values.now arg.now (index_of ty.now) }
{
    match ty.index() {
        Some(index) => index.eval_is(values, index_value(arg)),
        None => true,
    }
}

// The number of the first argument whose index is not the parameter's.
#[tactic(auto, unfolding(operation_rules::specs::Entry::index_fault))]
fn find_index(values: &[i64], mut args: &[Arg], mut params: &[Ty]) -> Option<u32>
    requires few { length args.now < 2 ^ 31 }
    requires many { length args.now ≡ length params.now }
    requires below { All (TypeBelow (length values.now)) params.now }
    ensures { spec.index_fault 1 values.now args.entry.now params.entry.now ≡ option_map ArgIndex result }
{
    let mut number: u32 = 1;
    'each: while let [arg, more_args @ ..] = args {
        let [ty, more_params @ ..] = params else {
            return None;
        };
        if !has_index(values, arg, ty) {
            return Some(number);
        }
        number += 1;
        args = more_args;
        params = more_params;
    }
    None
}

// The number of the first row that does not hold.
#[tactic(auto, unfolding(operation_rules::specs::Entry::row_fault))]
fn find_row(values: &[i64], mut rows: &[Form]) -> Option<u32>
    requires few { length rows.now < 2 ^ 31 }
    requires below { All (NamesBelow (length values.now)) rows.now }
    ensures { spec.row_fault 1 values.now rows.entry.now ≡ option_map EntryRow result }
{
    let mut number: u32 = 1;
    'each: while let [row, more @ ..] = rows {
        if !row.eval_row(values) {
            return Some(number);
        }
        number += 1;
        rows = more;
    }
    None
}

/// Nothing, where the arguments may be those of a function of this signature; else their first fault: of the number of arguments, of kinds, of
/// indices, of rows.
#[tactic(auto, unfolding(operation_rules::specs::Entry::entry_fault))]
pub fn check_arguments(alloc: Global, sig: &Signature, args: &[Arg]) -> Result<(), ArgumentError>
    requires { IsRunSignature sig.now }
    ensures { HasNoFault (spec.entry_fault sig.now.vars sig.now.rows sig.now.params args.now) result }
{
    let params = sig.params.as_slice();
    if args.len() != params.len() {
        return Err(ArgumentError::ArgCount);
    }
    if let Some(number) = find_kind(args, params) {
        return Err(ArgumentError::ArgKind(number));
    }
    let values = variable_values(alloc, sig.vars, args, params)?;
    if let Some(number) = find_index(values.as_slice(), args, params) {
        return Err(ArgumentError::ArgIndex(number));
    }
    if let Some(number) = find_row(values.as_slice(), sig.rows.as_slice()) {
        return Err(ArgumentError::EntryRow(number));
    }
    Ok(())
}
