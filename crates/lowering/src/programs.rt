//! The code of functions and of a program.

ghost use Rattle.std.specs.Prelude.{◌≡◌, IfOk, All, map};
ghost use Rattle.lowering.specs.Emitted as emitted;
ghost use Rattle.lowering.specs.Emitted.{HasFew};
ghost use Rattle.lowering.specs.Lowered as spec;
ghost use Rattle.xanadu_tree.specs.KindRules as rules;
ghost use Rattle.xanadu_tree.specs.PlainOf.{plain_fun};

use crate::numbering::numbered;
use crate::reaches::code_reach;
use crate::statements::{block, count};
use state_types::{Signature, TypeTable};
use std::alloc::Global;
use three_address::{LowFun, Lowered};
use typed_core::Proved;
use value_lowering::{Stop, kind_of};
use xan_io::Memory;
use xan_seq::Seq;
use xanadu_tree::{CoreFun, Kind, Packing};

/// The most instructions that a function has. No source within the length limit has one with more.
pub const MOST_INSTRUCTIONS: usize = 1_000_000_000;

// The kinds of what functions give.
fn results_of(alloc: Global, funs: &[CoreFun]) -> Result<Vec<Kind>, Stop>
    ensures { IfOk result (λ kinds. kinds.items ≡ map (λ f. rules.kind_of f.result) funs.now) }
{
    let mut kinds = Vec::new(alloc);
    for fun in funs {
        let Ok(()) = kinds.push(kind_of(&fun.result)) else {
            return Err(Stop::Memory);
        };
    }
    Ok(kinds)
}

// A function with its signature.
fn function(
    alloc: Global,
    fun: &CoreFun,
    sig: &Signature,
    types: &[Packing],
    results: &[Kind],
) -> Result<LowFun, Stop>
    ensures made { IfOk result (λ made. made ≡ emitted.function_in (record { types = types.now; results = results.now; kinds = fun.now.kinds }) (plain_fun fun.now) sig.now) }
    ensures few { IfOk result (λ made. HasFew made) }
{
    let kinds = fun.kinds.as_slice();
    let mut code = Vec::new(alloc);
    let mut labels = Vec::new(alloc);
    block(
        fun.body.as_slice(),
        alloc,
        types,
        results,
        kinds,
        0,
        &mut code,
        &mut labels,
    )?;
    if code.len() > MOST_INSTRUCTIONS {
        return Err(Stop::Large);
    }
    let places = code_reach(code.as_slice(), count(kinds)?)?;
    let code = numbered(alloc, labels.as_slice(), code)?;
    let Ok(sig) = sig.copy(alloc) else {
        return Err(Stop::Memory);
    };
    Ok(LowFun {
        name: fun.name.copy()?,
        sig,
        places,
        code: Seq::from_vec(code),
        labels: Seq::from_vec(labels),
    })
}

// Each function with its signature.
#[tactic(auto, using(value_lowering::proofs::EmittedCode::emitted), unfolding(crate::specs::Emitted::functions_in))]
fn functions(
    alloc: Global,
    funs: &[CoreFun],
    sigs: &[Signature],
    types: &[Packing],
    results: &[Kind],
) -> Result<Vec<LowFun>, Stop>
    ensures made { IfOk result (λ made. made.items ≡ emitted.functions_in types.now results.now funs.now sigs.now) }
    ensures few { IfOk result (λ made. All HasFew made.items) }
{
    let mut made = Vec::new(alloc);
    let mut funs_left = funs;
    let mut sigs_left = sigs;
    'functions: while let [fun, later @ ..] = funs_left {
        let [sig, others @ ..] = sigs_left else {
            return Ok(made);
        };
        let next = function(alloc, fun, sig, types, results)?;
        let Ok(()) = made.push(next) else {
            return Err(Stop::Memory);
        };
        funs_left = later;
        sigs_left = others;
    }
    Ok(made)
}

// The program of these types, functions, signatures and closed types.
fn program_of(
    alloc: Global,
    types: &[Packing],
    funs: &[CoreFun],
    main: u32,
    sigs: &[Signature],
    table: &TypeTable,
) -> Result<Lowered, Stop>
    ensures made { IfOk result (λ made. made ≡ emitted.program_in types.now funs.now main sigs.now table.now) }
    ensures few { IfOk result (λ made. All HasFew made.funs) }
{
    let results = results_of(alloc, funs)?;
    let made = functions(alloc, funs, sigs, types, results.as_slice())?;
    let Ok(table) = table.copy() else {
        return Err(Stop::Memory);
    };
    Ok(Lowered {
        funs: Seq::from_vec(made),
        table,
        main,
    })
}

// The program, or why there is none.
#[tactic(auto, using(crate::proofs::FunctionsMade::programs_made))]
fn translated(alloc: Global, program: &Proved) -> Result<Lowered, Stop>
    ensures made { IfOk result (λ made. made ≡ spec.lowered program.now.base) }
    ensures few { IfOk result (λ made. All HasFew made.funs) }
{
    let base = program.base();
    let core = base.core();
    program_of(
        alloc,
        core.types(),
        core.funs(),
        core.main(),
        base.sigs(),
        base.table(),
    )
}

/// The code over places of a core whose goals are proved. No function has more than `MOST_INSTRUCTIONS` instructions: for a core whose code
/// has more the answer is `Memory`, and no source within the limits has such code.
pub fn lower(alloc: Global, program: &Proved) -> Result<Lowered, Memory>
    ensures made { IfOk result (λ made. made ≡ spec.lowered program.now.base) }
    ensures few { IfOk result (λ made. All HasFew made.funs) }
{
    match translated(alloc, program) {
        Ok(made) => Ok(made),
        Err(Stop::Memory | Stop::Large) => Err(Memory),
    }
}
