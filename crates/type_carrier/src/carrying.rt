//! The typed code of functions and of a program.

ghost use Rattle.std.specs.List.{AllZip};
ghost use Rattle.std.specs.Prelude.{◌≡◌, IfOk, map};
ghost use Rattle.three_address.specs.LiveLabels.{AreAllColumns};
ghost use Rattle.type_carrier.specs.Carried as spec;
ghost use Rattle.type_carrier.specs.Carried.{Carries};
ghost use Rattle.type_carrier.specs.ProvedRows.{proofs_in};
ghost use Rattle.xanadu_tree.specs.PlainOf.{plain_fun};

use crate::site::Site;
use crate::statements::block;
use proof_lines::Line;
use state_types::StateType;
use std::alloc::Global;
use three_address::{Edge, LowFun, Lowered, Typed, live_at_labels};
use typed_core::{GoalAt, Note, Proved};
use xan_io::Memory;
use xan_seq::Seq;
use xanadu_tree::CoreFun;

// The live places of the labels of each function.
fn all_columns(alloc: Global, lows: &[LowFun]) -> Result<Vec<Seq<Seq<bool>>>, Memory>
    ensures { IfOk result (λ made. AllZip AreAllColumns lows.now made.items) }
{
    let mut made = Vec::new(alloc);
    for low in lows {
        let columns = live_at_labels(alloc, low)?;
        made.push(Seq::from_vec(columns))?;
    }
    Ok(made)
}

// A function behind the others, and the notes that are left.
fn push_function<'a>(
    alloc: Global,
    goals: &[GoalAt],
    lines: &[Seq<Line>],
    columns: &[Seq<bool>],
    fun: &CoreFun,
    notes: &'a [Note],
    states: &mut Vec<Seq<StateType>>,
    edges: &mut Vec<Seq<Edge>>,
) -> Result<&'a [Note], Memory>
    ensures { IfOk result (λ rest. spec.functions_of states.new.items edges.new.items rest.now
        ≡ spec.with_function (spec.function (proofs_in goals.now lines.now) columns.now (plain_fun fun.now) notes.now) (spec.functions_of states.old.items edges.old.items notes.now)) }
{
    let site = Site {
        alloc,
        goals,
        lines,
        columns,
    };
    let mut own_edges = Vec::new(alloc);
    let mut own_states = Vec::new(alloc);
    let rest = block(
        fun.body.as_slice(),
        &site,
        notes,
        &mut own_edges,
        &mut own_states,
    )?;
    states.push(Seq::from_vec(own_states))?;
    edges.push(Seq::from_vec(own_edges))?;
    Ok(rest)
}

// What stands with all functions, and the notes that are left.
#[derive(Drop)]
struct Bodies<'a> {
    states: Vec<Seq<StateType>>,
    edges: Vec<Seq<Edge>>,
    rest: &'a [Note],
}

// All functions.
#[tactic(auto, unfolding(crate::specs::Carried::functions))]
fn all_bodies<'a>(
    alloc: Global,
    goals: &[GoalAt],
    lines: &[Seq<Line>],
    funs: &[CoreFun],
    all: &[Seq<Seq<bool>>],
    notes: &'a [Note],
) -> Result<Bodies<'a>, Memory>
    ensures { IfOk result (λ made. spec.functions_of made.states.items made.edges.items made.rest.now
        ≡ spec.functions (proofs_in goals.now lines.now) (map plain_fun funs.now) all.now (spec.no_functions notes.now)) }
{
    let mut states = Vec::new(alloc);
    let mut edges = Vec::new(alloc);
    let mut rest = notes;
    let mut funs_left = funs;
    let mut columns_left = all;
    'functions: while let [fun, later @ ..] = funs_left {
        let [columns, others @ ..] = columns_left else {
            return Ok(Bodies {
                states,
                edges,
                rest,
            });
        };
        rest = push_function(
            alloc,
            goals,
            lines,
            columns.as_slice(),
            fun,
            rest,
            &mut states,
            &mut edges,
        )?;
        funs_left = later;
        columns_left = others;
    }
    Ok(Bodies {
        states,
        edges,
        rest,
    })
}

/// The typed code of a program whose goals are proved: the state type of each label, with the places that are live there alone, and what
/// stands with each instruction. The code is this program's, and stays as it is.
pub fn carry(alloc: Global, program: &Proved, low: Lowered) -> Result<Typed, Memory>
    ensures { IfOk result (λ typed. Carries program.now low typed) }
{
    let base = program.base();
    let columns = all_columns(alloc, low.funs.as_slice())?;
    let made = all_bodies(
        alloc,
        base.goals(),
        program.lines(),
        base.core().funs(),
        columns.as_slice(),
        base.notes(),
    )?;
    let Bodies { states, edges, .. } = made;
    Ok(Typed {
        low,
        states: Seq::from_vec(states),
        edges: Seq::from_vec(edges),
    })
}
