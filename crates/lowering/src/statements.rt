//! The code of statements and blocks, and the positions of their labels.

ghost use Rattle.std.specs.Option.{option_map};
ghost use Rattle.std.specs.Prelude.{◌≡◌, ◌++◌, [], ◌∷◌, IfOk, length, false, suc};
ghost use Rattle.value_lowering.specs.Frames.{operand_place};
ghost use Rattle.value_lowering.specs.OneInstruction as one;
ghost use Rattle.lowering.specs.StatementCode as spec;
ghost use Rattle.lowering.specs.TestCode as tests;
ghost use Rattle.value_lowering.specs.ValueCode as values;
ghost use Rattle.xanadu_tree.specs.PlainOf.{plain_block, plain_expr, plain_stmt, plain_test};

use crate::blocks::{block_size, completes_all, jumps, meet, statement_size};
use crate::sizes::{one_if, plus, test_size};
use crate::tests::{jump_if, label_if, test};
use std::alloc::Global;
use three_address::{LowInstr, Op22};
use value_lowering::{
    Stop, behind, emit, emit_with, operand, temporary, tuple_number, value, variable,
};
use xanadu_tree::{Clause, CoreExpr, CoreStmt, Kind, Packing, Test};

// The value of a `return`, and the return.
#[tactic(auto, using(value_lowering::proofs::EmittedCode::emitted))]
fn return_onto(
    e: &Option<CoreExpr>,
    alloc: Global,
    vars: u16,
    code: &mut Vec<LowInstr>,
) -> Result<(), Stop>
    ensures { IfOk result (λ _. code.new.items ≡ code.old.items ++ spec.return_code vars (option_map plain_expr e.now)) }
{
    match e {
        Some(e) => {
            let place = operand(e, alloc, vars, 0, code)?;
            emit(alloc, code, Op22::Ret, &[place], &0, 0)
        }
        None => {
            let place = temporary(vars, 0)?;
            emit(alloc, code, Op22::Li, &[place], &0, 0)?;
            emit(alloc, code, Op22::Ret, &[place], &0, 0)
        }
    }
}

// A value into a cell.
#[tactic(auto, using(value_lowering::proofs::EmittedCode::emitted))]
fn store_onto(
    array: &CoreExpr,
    index: &CoreExpr,
    e: &CoreExpr,
    alloc: Global,
    vars: u16,
    code: &mut Vec<LowInstr>,
) -> Result<(), Stop>
    ensures { IfOk result (λ _. code.new.items ≡ code.old.items ++ spec.store_code vars (plain_expr array.now) (plain_expr index.now) (plain_expr e.now)) }
{
    let first = operand(array, alloc, vars, 0, code)?;
    let next = behind(array, 0)?;
    let second = operand(index, alloc, vars, next, code)?;
    let last = behind(index, next)?;
    let third = operand(e, alloc, vars, last, code)?;
    emit(alloc, code, Op22::St, &[first, second, third], &0, 0)
}

// The number of a printed value.
#[tactic(auto, using(value_lowering::proofs::EmittedCode::emitted))]
fn print_onto(e: &CoreExpr, alloc: Global, vars: u16, code: &mut Vec<LowInstr>) -> Result<(), Stop>
    ensures { IfOk result (λ _. code.new.items
        ≡ code.old.items ++ (values.operand_at vars (plain_expr e.now) 0 ++ one.printed (operand_place vars (plain_expr e.now) 0) ∷ [])) }
{
    let place = operand(e, alloc, vars, 0, code)?;
    emit(alloc, code, Op22::Print, &[place], &0, 0)
}

/// Where the parts of an `if` or a loop stand, and what is behind them.
#[derive(Clone, Copy, Drop)]
pub(crate) struct Branches {
    /// The position of the first branch, or of the test of a loop.
    pub first: u32,
    /// That of the second one, or of the body.
    pub second: u32,
    /// That behind all.
    pub end: u32,
}

// The positions within an `if`.
fn branches_at(
    asked: &Test,
    on_true: &[CoreStmt],
    on_false: &[CoreStmt],
    join: &Option<Clause>,
    at: u32,
) -> Result<Branches, Stop>
    ensures { IfOk result (λ found. (found.first ≡ spec.first_at (plain_test asked.now) at)
        × (found.second ≡ spec.second_at (plain_test asked.now) (plain_block on_true.now) at)
        × (found.end ≡ spec.meet_at (plain_test asked.now) (plain_block on_true.now) (plain_block on_false.now) join.now at)) }
{
    let first = plus(at, test_size(asked, false)?)?;
    let one = plus(first, block_size(on_true)?)?;
    let second = plus(one, one_if(completes_all(on_true)))?;
    let two = plus(second, block_size(on_false)?)?;
    let end = plus(two, one_if(jumps(on_true, on_false, join)))?;
    Ok(Branches { first, second, end })
}

// The positions within a loop: of its test, of its body, and behind it.
fn turn_at(asked: &Test, body: &[CoreStmt], at: u32) -> Result<Branches, Stop>
    ensures { IfOk result (λ found. (found.first ≡ suc at)
        × (found.second ≡ spec.first_at (plain_test asked.now) (suc at))
        × (found.end ≡ spec.behind_loop (plain_test asked.now) (plain_block body.now) at)) }
{
    let first = plus(at, 1)?;
    let second = plus(first, test_size(asked, false)?)?;
    let turn = plus(second, block_size(body)?)?;
    let end = plus(turn, one_if(completes_all(body)))?;
    Ok(Branches { first, second, end })
}

// The parts of a tuple, each into a variable.
#[tactic(auto, using(value_lowering::proofs::EmittedCode::emitted))]
fn split_onto(
    e: &CoreExpr,
    alloc: Global,
    vars: u16,
    number: u32,
    variables: &[u32],
    code: &mut Vec<LowInstr>,
) -> Result<(), Stop>
    ensures { IfOk result (λ _. code.new.items ≡ code.old.items
        ++ (values.operand_at vars (plain_expr e.now) 0 ++ one.parted number (operand_place vars (plain_expr e.now) 0) variables.now ∷ [])) }
{
    let from = operand(e, alloc, vars, 0, code)?;
    let parts = variable_places(alloc, variables)?;
    emit_with(alloc, code, Op22::Untup, from, parts.as_slice(), number, 0)
}

// The places of variables.
fn variable_places(alloc: Global, variables: &[u32]) -> Result<Vec<u16>, Stop>
    ensures { IfOk result (λ places. places.items ≡ variables.now) }
{
    let mut places = Vec::new(alloc);
    for x in variables {
        let Ok(()) = places.push(variable(*x)?) else {
            return Err(Stop::Memory);
        };
    }
    Ok(places)
}

/// How many variables there are.
pub(crate) fn count(kinds: &[Kind]) -> Result<u16, Stop>
    ensures { IfOk result (λ vars. vars ≡ length kinds.now) }
{
    match u16::try_from(kinds.len()) {
        Ok(vars) => Ok(vars),
        Err(_) => Err(Stop::Large),
    }
}

// The head of a loop at a position: a jump to its label, and its test, which leaves the loop where it is false.
#[tactic(auto, using(value_lowering::proofs::EmittedCode::emitted))]
fn head_onto(
    asked: &Test,
    alloc: Global,
    vars: u16,
    head: u32,
    end: u32,
    code: &mut Vec<LowInstr>,
    labels: &mut Vec<u32>,
) -> Result<(), Stop>
    ensures code { IfOk result (λ _. code.new.items ≡ code.old.items ++ (one.jump head ∷ tests.test_code vars (spec.unless end) (plain_test asked.now) head)) }
    ensures labels { IfOk result (λ _. labels.new.items ≡ labels.old.items ++ (head ∷ tests.test_labels false (plain_test asked.now) head)) }
{
    jump_if(alloc, true, head, code)?;
    label_if(true, head, labels)?;
    test(asked, alloc, vars, false, end, head, code, labels)
}

/// A statement at a position.
#[cycle(statements)]
#[tactic(auto, using(xanadu_tree::proofs::Equations::plain_trees, value_lowering::proofs::EmittedCode::emitted), unfolding(crate::specs::StatementCode::statement_code, crate::specs::StatementCode::statement_labels))]
fn statement(
    s: &CoreStmt,
    alloc: Global,
    types: &[Packing],
    results: &[Kind],
    kinds: &[Kind],
    at: u32,
    code: &mut Vec<LowInstr>,
    labels: &mut Vec<u32>,
) -> Result<(), Stop>
    ensures code { IfOk result (λ _. code.new.items
        ≡ code.old.items ++ spec.statement_code (record { types = types.now; results = results.now; kinds = kinds.now }) (plain_stmt s.now) at) }
    ensures labels { IfOk result (λ _. labels.new.items ≡ labels.old.items ++ spec.statement_labels (plain_stmt s.now) at) }
{
    let vars = count(kinds)?;
    match s {
        CoreStmt::Set(x, e) => {
            let to = variable(*x)?;
            value(e, alloc, vars, 0, to, code)
        }
        CoreStmt::Split(xs, e, _) => {
            let number = tuple_number(e, types, results, kinds);
            split_onto(e, alloc, vars, number, xs.as_slice(), code)
        }
        CoreStmt::Store(array, index, e, _) => store_onto(array, index, e, alloc, vars, code),
        CoreStmt::Do(e) => {
            let to = temporary(vars, 0)?;
            value(e, alloc, vars, 0, to, code)
        }
        CoreStmt::Print(e) => print_onto(e, alloc, vars, code),
        CoreStmt::If {
            test: asked,
            on_true,
            on_false,
            join,
            ..
        } => {
            let found = branches_at(asked, on_true, on_false, join, at)?;
            test(asked, alloc, vars, false, found.second, at, code, labels)?;
            let ends = completes_all(on_true);
            branch(
                on_true,
                alloc,
                types,
                results,
                kinds,
                found.first,
                ends,
                found.end,
                true,
                found.second,
                code,
                labels,
            )?;
            let (ends, meets) = (
                jumps(on_true, on_false, join),
                meet(on_true, on_false, join),
            );
            branch(
                on_false,
                alloc,
                types,
                results,
                kinds,
                found.second,
                ends,
                found.end,
                meets,
                found.end,
                code,
                labels,
            )
        }
        CoreStmt::While {
            test: asked,
            body,
            ..
        } => {
            let found = turn_at(asked, body, at)?;
            head_onto(asked, alloc, vars, found.first, found.end, code, labels)?;
            let ends = completes_all(body);
            branch(
                body,
                alloc,
                types,
                results,
                kinds,
                found.second,
                ends,
                found.first,
                true,
                found.end,
                code,
                labels,
            )
        }
        CoreStmt::Return(e, _) => return_onto(e, alloc, vars, code),
    }
}

// A block at a position, a jump behind it where it is asked for, and then a label where it is asked for.
#[cycle(statements)]
#[tactic(auto, using(value_lowering::proofs::EmittedCode::emitted))]
fn branch(
    ss: &[CoreStmt],
    alloc: Global,
    types: &[Packing],
    results: &[Kind],
    kinds: &[Kind],
    at: u32,
    ends: bool,
    to: u32,
    meets: bool,
    label: u32,
    code: &mut Vec<LowInstr>,
    labels: &mut Vec<u32>,
) -> Result<(), Stop>
    ensures code { IfOk result (λ _. code.new.items
        ≡ code.old.items ++ (spec.block_code (record { types = types.now; results = results.now; kinds = kinds.now }) (plain_block ss.now) at ++ one.jump_if ends to)) }
    ensures labels { IfOk result (λ _. labels.new.items ≡ labels.old.items ++ (spec.block_labels (plain_block ss.now) at ++ one.label_if meets label)) }
{
    block(ss, alloc, types, results, kinds, at, code, labels)?;
    jump_if(alloc, ends, to, code)?;
    label_if(meets, label, labels)
}

/// A block at a position.
#[cycle(statements)]
#[tactic(auto, using(xanadu_tree::proofs::Equations::plain_trees, value_lowering::proofs::EmittedCode::emitted), unfolding(crate::specs::StatementCode::statement_code, crate::specs::StatementCode::statement_labels))]
pub(crate) fn block(
    ss: &[CoreStmt],
    alloc: Global,
    types: &[Packing],
    results: &[Kind],
    kinds: &[Kind],
    at: u32,
    code: &mut Vec<LowInstr>,
    labels: &mut Vec<u32>,
) -> Result<(), Stop>
    ensures code { IfOk result (λ _. code.new.items
        ≡ code.old.items ++ spec.block_code (record { types = types.now; results = results.now; kinds = kinds.now }) (plain_block ss.now) at) }
    ensures labels { IfOk result (λ _. labels.new.items ≡ labels.old.items ++ spec.block_labels (plain_block ss.now) at) }
{
    let mut here = at;
    for s in ss {
        statement(s, alloc, types, results, kinds, here, code, labels)?;
        here = plus(here, statement_size(s)?)?;
    }
    Ok(())
}
