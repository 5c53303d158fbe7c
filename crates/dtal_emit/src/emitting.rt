//! Functions and whole programs.

ghost use Rattle.std.specs.Prelude.{◌≡◌, ◌≤◌, length, drop, IfOk};
ghost use Rattle.dtal_emit.specs.Emitted as spec;

use crate::blocks::blocks_of;
use crate::homes::enter;
use dtal_code::{DtalProgram, Function};
use state_types::{Packed, StateType, TypeTable};
use std::alloc::Global;
use three_address::{Assignment, Edge, LowFun, Typed};
use xan_io::Memory;
use xan_seq::Seq;

// How many parameters begin in registers.
fn entering(fun: &LowFun) -> u8
    ensures { result ≡ spec.fewer 8 (length fun.now.sig.params) }
{
    let count = fun.sig.params.as_slice().len();
    if count <= 8 { count as u8 } else { 8 }
}

// What becomes of a function, where its places have these homes.
fn emit_function(
    alloc: Global,
    fun: &LowFun,
    labels: &[StateType],
    edges: &[Edge],
    homes: &[u8],
) -> Result<Function, Memory>
    ensures { IfOk result (λ made. made ≡ spec.emitted_fun fun.now labels.now edges.now homes.now) }
{
    let name = fun.name.copy()?;
    let Ok(sig) = fun.sig.copy(alloc) else {
        return Err(Memory);
    };
    let mut front = Vec::new(alloc);
    enter(alloc, &mut front, homes, entering(fun))?;
    let positions = fun.labels.as_slice();
    let code = fun.code.as_slice();
    let blocks = blocks_of(alloc, homes, positions, labels, code, edges, front)?;
    Ok(Function {
        name,
        sig,
        blocks: Seq::from_vec(blocks),
    })
}

// What becomes of functions.
#[tactic(auto, unfolding(crate::specs::Emitted::emitted_funs))]
fn emit_functions(
    alloc: Global,
    funs: &[LowFun],
    states: &[Seq<StateType>],
    edges: &[Seq<Edge>],
    homes: &[Seq<u8>],
) -> Result<Vec<Function>, Memory>
    ensures { IfOk result (λ made. made.items ≡ spec.emitted_funs funs.now states.now edges.now homes.now) }
{
    let mut made = Vec::new(alloc);
    let mut funs_left = funs;
    let mut states_left = states;
    let mut edges_left = edges;
    let mut homes_left = homes;
    'functions: while let [fun, funs_later @ ..] = funs_left {
        let [labels, states_later @ ..] = states_left else {
            return Ok(made);
        };
        let [edges_here, edges_later @ ..] = edges_left else {
            return Ok(made);
        };
        let [homes_here, homes_later @ ..] = homes_left else {
            return Ok(made);
        };
        made.push(emit_function(
            alloc,
            fun,
            labels.as_slice(),
            edges_here.as_slice(),
            homes_here.as_slice(),
        )?)?;
        funs_left = funs_later;
        states_left = states_later;
        edges_left = edges_later;
        homes_left = homes_later;
    }
    Ok(made)
}

// The types that a text writes: all but the first two.
fn written_types(alloc: Global, table: &TypeTable) -> Result<Vec<Packed>, Memory>
    ensures { IfOk result (λ types. types.items ≡ drop 2 table.now) }
{
    let mut types = Vec::new(alloc);
    'types: for id in 2..table.len() {
        let Some(packed) = table.get(id) else {
            unreachable!()
        };
        let Ok(copy) = packed.copy(alloc) else {
            return Err(Memory);
        };
        types.push(copy)?;
    }
    Ok(types)
}

/// The program that typed code becomes, where its places have these homes: exactly that of `specs/Emitted`. `Memory` comes where memory ran
/// out.
#[tactic(auto, unfolding(crate::specs::Emitted::emitted))]
pub fn emit(alloc: Global, code: &Typed, homes: &Assignment) -> Result<DtalProgram, Memory>
    ensures { IfOk result (λ program. program ≡ spec.emitted code.now homes.now) }
{
    let types = written_types(alloc, &code.low.table)?;
    let funs = emit_functions(
        alloc,
        code.low.funs.as_slice(),
        code.states.as_slice(),
        code.edges.as_slice(),
        homes.homes.as_slice(),
    )?;
    Ok(DtalProgram {
        types: Seq::from_vec(types),
        funs: Seq::from_vec(funs),
    })
}
