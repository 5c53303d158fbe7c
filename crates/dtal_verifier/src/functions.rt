//! The walk through functions.

ghost use Rattle.std.specs.Prelude.{◌≡◌, ◌≤◌, ◌+◌, ◌∷◌, drop, length, map, All, IfOk};
ghost use Rattle.dtal_code.specs.Declarations as declarations;
ghost use Rattle.dtal_code.specs.Grammar.{IsCode, IsFunction, IsInstr, size_of};
ghost use Rattle.dtal_code.specs.Passing.{instr_verdict};
ghost use Rattle.dtal_code.specs.Refusing.{labels_walked};
ghost use Rattle.dtal_code.specs.Verdicts.{at_place};
ghost use Rattle.dtal_code.specs.declared.refusal.Where.TheVariants as where_is;
ghost use Rattle.dtal_verifier.specs.Code.{Passes};
ghost use Rattle.dtal_verifier.specs.Views.{AreDeclared, IsDeclared, table_with};
ghost use Rattle.dtal_verifier.specs.Walks as spec;
ghost use Rattle.instruction_checks.specs.Proving.{IsReady};
ghost use Rattle.instruction_checks.specs.Views.{IsSite, IsStanding};
ghost use Rattle.operation_rules.specs.Settings.{setting_of};

use crate::error::{VerifyError, locate};
use crate::signatures::signatures_of;
use crate::states::{begin_block, begin_function};
use crate::types::table_of;
use dtal_code::{Block, DtalProgram, Function, Instr, Where};
use instruction_checks::{Checker, Site, check_instruction, first_checker};
use operation_rules::Setting;
use state_types::{Packed, Signature, StateType, TypeTable};
use std::alloc::Global;

// What is asked of an instruction, told with its number.
#[tactic(auto, using(crate::proofs::RefusedPlaces::place_fails))]
fn check_instruction_at(
    site: &Site<'_>,
    checker: &mut Checker,
    at: u32,
    instr: &Instr,
    state: &mut StateType,
) -> Result<(), VerifyError>
    requires site { IsSite site.now }
    requires ready { IsReady checker.old }
    requires instr { IsInstr instr.now }
    requires standing { IsStanding site.now.setting.own.now.vars state.old }
    ensures gone { Passes (λ _. state.new) result
        (at_place (where_is.Instr site.now.fun at) (instr_verdict (setting_of site.now.setting) site.now.labels.now state.old instr.now)) }
    ensures standing { IfOk result (λ _. IsStanding site.now.setting.own.now.vars state.new) }
    ensures ready { IfOk result (λ _. IsReady checker.new) }
{
    match check_instruction(site, checker, instr, state) {
        Ok(()) => Ok(()),
        Err(broken) => Err(locate(broken, Where::Instr(site.fun, at))),
    }
}

// The instructions of a block.
#[tactic(auto, unfolding(crate::specs::Walks::code_passed))]
fn check_code(
    site: &Site<'_>,
    checker: &mut Checker,
    at: usize,
    mut code: &[Instr],
    mut state: StateType,
) -> Result<(), VerifyError>
    requires site { IsSite site.now }
    requires ready { IsReady checker.old }
    requires instrs { All IsInstr code.now }
    requires few { at + length code.now ≤ 4294967295 }
    requires standing { IsStanding site.now.setting.own.now.vars state }
    ensures passed { Passes (λ _. tt) result (spec.code_passed (setting_of site.now.setting) site.now.labels.now site.now.fun at state code.entry.now) }
    ensures ready { IfOk result (λ _. IsReady checker.new) }
{
    let mut number = at;
    while let [instr, later @ ..] = code {
        check_instruction_at(site, checker, number as u32, instr, &mut state)?;
        number += 1;
        code = later;
    }
    Ok(())
}

// Blocks, each of which begins in a state of its own.
#[tactic(auto, unfolding(crate::specs::Walks::blocks_passed, dtal_code::specs::Grammar::size_of))]
fn check_blocks(
    site: &Site<'_>,
    checker: &mut Checker,
    at: usize,
    mut begins: &[StateType],
    mut blocks: &[Block],
) -> Result<(), VerifyError>
    requires site { IsSite site.now }
    requires ready { IsReady checker.old }
    requires code { All (λ block. IsCode block.code) blocks.now }
    requires few { at + size_of blocks.now ≤ 4294967295 }
    requires standing { All (IsStanding site.now.setting.own.now.vars) begins.now }
    ensures passed { Passes (λ _. tt) result (spec.blocks_passed (setting_of site.now.setting) site.now.labels.now site.now.fun at begins.entry.now blocks.entry.now) }
    ensures ready { IfOk result (λ _. IsReady checker.new) }
{
    let mut number = at;
    while let [begin, others @ ..] = begins {
        let [block, later @ ..] = blocks else {
            return Ok(());
        };
        let code = block.code.as_slice();
        check_code(site, checker, number, code, begin.copy()?)?;
        number += code.len();
        blocks = later;
        begins = others;
    }
    Ok(())
}

// All blocks of a function, of which the first begins in this state, and the others in those at the labels.
#[tactic(auto, unfolding(crate::specs::Walks::blocks_passed, dtal_code::specs::Grammar::size_of))]
fn check_body(
    site: &Site<'_>,
    checker: &mut Checker,
    first: StateType,
    blocks: &[Block],
) -> Result<(), VerifyError>
    requires site { IsSite site.now }
    requires ready { IsReady checker.old }
    requires code { All (λ block. IsCode block.code) blocks.now }
    requires few { size_of blocks.now ≤ 4294967295 }
    requires first { IsStanding site.now.setting.own.now.vars first }
    requires standing { All (IsStanding site.now.setting.own.now.vars) site.now.labels.now }
    ensures passed { Passes (λ _. tt) result
        (spec.blocks_passed (setting_of site.now.setting) site.now.labels.now site.now.fun 0 (first ∷ site.now.labels.now) blocks.now) }
    ensures ready { IfOk result (λ _. IsReady checker.new) }
{
    let [block, others @ ..] = blocks else {
        return Ok(());
    };
    let code = block.code.as_slice();
    check_code(site, checker, 0, code, first)?;
    check_blocks(site, checker, code.len(), site.labels, others)
}

// The blocks that have labels.
fn labelled(blocks: &[Block]) -> &[Block]
    ensures { result.now ≡ drop 1 blocks.now }
{
    match blocks {
        [_, others @ ..] => others,
        [] => blocks,
    }
}

// The states at the labels.
#[tactic(auto, unfolding(dtal_code::specs::Refusing::labels_walked))]
fn label_states(
    alloc: Global,
    types: &[Packed],
    sig: &Signature,
    fun: u32,
    mut blocks: &[Block],
) -> Result<Vec<StateType>, VerifyError>
    requires { length blocks.now ≤ 4294967295 }
    ensures walked { Passes (λ states. states.items) result (labels_walked (table_with types.now) sig.now fun 1 blocks.entry.now) }
    ensures standing { IfOk result (λ states. All (IsStanding sig.now.vars) states.items) }
{
    let mut made = Vec::new(alloc);
    let mut label = 1usize;
    while let [block, later @ ..] = blocks {
        made.push(begin_block(alloc, types, sig, block, fun, label as u32)?)?;
        label += 1;
        blocks = later;
    }
    Ok(made)
}

// What is asked of a function.
#[tactic(auto, unfolding(crate::specs::Walks::function_passed))]
fn check_function(
    alloc: Global,
    program: &DtalProgram,
    table: &TypeTable,
    sigs: &[Signature],
    checker: &mut Checker,
    number: u32,
    fun: &Function,
) -> Result<(), VerifyError>
    requires ready { IsReady checker.old }
    requires declared { AreDeclared program.now }
    requires table { table.now ≡ declarations.table_of program.now }
    requires sigs { sigs.now ≡ map (λ f. f.sig) program.now.funs }
    requires own { IsDeclared fun.now }
    requires function { IsFunction fun.now }
    ensures passed { Passes (λ _. tt) result (spec.function_passed program.now number fun.now) }
    ensures ready { IfOk result (λ _. IsReady checker.new) }
{
    let first = begin_function(alloc, &fun.sig, number)?;
    let blocks = fun.blocks.as_slice();
    let labels = label_states(
        alloc,
        program.types.as_slice(),
        &fun.sig,
        number,
        labelled(blocks),
    )?;
    let site = Site {
        alloc,
        setting: Setting {
            table,
            sigs,
            own: &fun.sig,
        },
        labels: labels.as_slice(),
        fun: number,
    };
    check_body(&site, checker, first, blocks)
}

// What is asked of all functions.
#[tactic(auto, unfolding(crate::specs::Walks::functions_passed))]
fn check_each(
    alloc: Global,
    program: &DtalProgram,
    table: &TypeTable,
    sigs: &[Signature],
    checker: &mut Checker,
) -> Result<(), VerifyError>
    requires ready { IsReady checker.old }
    requires declared { AreDeclared program.now }
    requires table { table.now ≡ declarations.table_of program.now }
    requires sigs { sigs.now ≡ map (λ f. f.sig) program.now.funs }
    requires few { length program.now.funs ≤ 4294967295 }
    requires functions { All IsFunction program.now.funs }
    ensures { Passes (λ _. tt) result (spec.functions_passed program.now 0 program.now.funs) }
{
    let mut funs = program.funs.as_slice();
    let mut number = 0usize;
    while let [fun, later @ ..] = funs {
        check_function(alloc, program, table, sigs, checker, number as u32, fun)?;
        number += 1;
        funs = later;
    }
    Ok(())
}

/// What is asked of all functions, where types and signatures pass.
pub(crate) fn check_functions(alloc: Global, program: &DtalProgram) -> Result<(), VerifyError>
    requires declared { AreDeclared program.now }
    requires few_types { length program.now.types ≤ 65534 }
    requires few { length program.now.funs ≤ 4294967295 }
    requires functions { All IsFunction program.now.funs }
    ensures { Passes (λ _. tt) result (spec.functions_passed program.now 0 program.now.funs) }
{
    let table = table_of(alloc, program.types.as_slice())?;
    let sigs = signatures_of(alloc, program.funs.as_slice())?;
    let mut checker = first_checker(alloc)?;
    check_each(alloc, program, &table, sigs.as_slice(), &mut checker)
}
