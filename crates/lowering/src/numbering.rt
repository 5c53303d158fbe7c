//! Labels, which go by their numbers from 1 in place of their positions.

ghost use Rattle.std.specs.Prelude.{◌≡◌, IfOk, slice_get};
ghost use Rattle.lowering.specs.Emitted as emitted;
ghost use Rattle.lowering.specs.Emitted.{IsTable};
ghost use Rattle.lowering.specs.Lowered as spec;

use std::alloc::Global;
use three_address::{LowInstr, Op22};
use value_lowering::Stop;

// The number of a label into the table, unless the table has one for its position.
fn note(table: &mut Vec<u32>, at: u32, number: u32)
    ensures { table.new.items ≡ emitted.noted (slice_get table.old.items at) table.old.items at number }
{
    if table.as_slice().get(at as usize).copied() == Some(0) {
        table[at as usize] = number;
    }
}

// For each of so many positions the number of its label, or 0.
#[tactic(auto, unfolding(crate::specs::Emitted::numbers_onto))]
fn numbers_at(alloc: Global, labels: &[u32], size: usize) -> Result<Vec<u32>, Stop>
    ensures { IfOk result (λ table. IsTable labels.now table.items) }
{
    let Ok(mut table) = Vec::from_elem(alloc, 0u32, size) else {
        return Err(Stop::Memory);
    };
    let mut rest = labels;
    let mut number = 0u32;
    'labels: while let [at, later @ ..] = rest {
        number = match number.checked_add(1) {
            Some(next) => next,
            None => return Err(Stop::Large),
        };
        note(&mut table, *at, number);
        rest = later;
    }
    Ok(table)
}

// Whether it goes to a label.
fn leads(op: Op22) -> bool
    ensures { result ≡ spec.leads op }
{
    match op {
        Op22::Br | Op22::Bt | Op22::Bf | Op22::Jmp => true,
        Op22::Li
        | Op22::Lb
        | Op22::Mv
        | Op22::Add
        | Op22::Sub
        | Op22::Mul
        | Op22::Div
        | Op22::Mod
        | Op22::Set
        | Op22::Call
        | Op22::Ret
        | Op22::Len
        | Op22::Ld
        | Op22::St
        | Op22::New
        | Op22::Tup
        | Op22::Untup
        | Op22::Print => false,
    }
}

// What the table has at a position.
fn entry(table: &[u32], at: u32) -> Option<u32>
    ensures { result ≡ slice_get table.now at }
{
    table.get(at as usize).copied()
}

// The number of the label at a position.
fn number_at(labels: &[u32], table: &[u32], at: u32) -> Result<u32, Stop>
    requires { IsTable labels.now table.now }
    ensures { IfOk result (λ number. number ≡ spec.number_of labels.now at) }
{
    let Some(number) = entry(table, at) else {
        return Err(Stop::Large);
    };
    if number == 0 {
        return Err(Stop::Large);
    }
    Ok(number)
}

// The instruction with the number of its label in place of a position.
fn renumbered(labels: &[u32], table: &[u32], instr: LowInstr) -> Result<LowInstr, Stop>
    requires { IsTable labels.now table.now }
    ensures { IfOk result (λ made. made ≡ spec.renumbered labels.now (spec.leads instr.op) instr) }
{
    if !leads(instr.op) {
        return Ok(instr);
    }
    let target = number_at(labels, table, instr.target)?;
    Ok(LowInstr { target, ..instr })
}

/// The code with the number of a label in place of each position to which it leads.
#[tactic(auto, using(value_lowering::proofs::EmittedCode::emitted))]
pub(crate) fn numbered(
    alloc: Global,
    labels: &[u32],
    code: Vec<LowInstr>,
) -> Result<Vec<LowInstr>, Stop>
    ensures { IfOk result (λ made. made.items ≡ spec.numbered labels.now code.items) }
{
    let table = numbers_at(alloc, labels, code.len())?;
    let mut made = Vec::new(alloc);
    for instr in code {
        let next = renumbered(labels, table.as_slice(), instr)?;
        let Ok(()) = made.push(next) else {
            return Err(Stop::Memory);
        };
    }
    Ok(made)
}
