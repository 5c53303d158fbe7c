//! Live positions of a place, as marks.

ghost use Rattle.std.specs.Prelude.{◌≡◌, ◌<◌, length, IfOk};
ghost use Rattle.three_address.specs.Flow as flow;
ghost use Rattle.three_address.specs.LiveTables.{has};
ghost use Rattle.three_address.specs.PlaceLives as spec;
ghost use Rattle.three_address.specs.PlaceLives.{AreLive, one_pass, passed, place_lives, visited};
ghost use Rattle.three_address.specs.Splits as split;

use crate::function::LowFun;
use crate::instruction::{LowInstr, Op22};
use crate::place_lists::parts;
use std::alloc::Global;
use xan_io::Memory;

/// Whether a position is marked.
pub(crate) fn is_marked(marks: &[bool], at: usize) -> bool
    ensures { result ≡ split.marked marks.now at }
{
    match marks.get(at) {
        Some(mark) => *mark,
        None => false,
    }
}

// The position of a label, which are numbered from 1.
fn label_at(labels: &[u32], label: u32) -> Option<u32>
    ensures { result ≡ flow.label_at labels.now label }
{
    let before = label.checked_sub(1)?;
    labels.get(before as usize).copied()
}

// Whether the position of a label is marked.
fn is_label_marked(marks: &[bool], labels: &[u32], label: u32) -> bool
    ensures { result ≡ split.label_marked marks.now labels.now label }
{
    match label_at(labels, label) {
        Some(at) => is_marked(marks, at as usize),
        None => false,
    }
}

// Whether some position to which an instruction leads is marked.
fn leads(instr: &LowInstr, marks: &[bool], labels: &[u32], at: usize) -> bool
    requires { at < length marks.now }
    ensures { result ≡ split.leads_by instr.now.op marks.now labels.now instr.now.target at }
{
    match instr.op {
        Op22::Br | Op22::Bt | Op22::Bf => {
            is_marked(marks, at + 1) || is_label_marked(marks, labels, instr.target)
        }
        Op22::Jmp => is_label_marked(marks, labels, instr.target),
        Op22::Ret => false,
        Op22::Li
        | Op22::Lb
        | Op22::Mv
        | Op22::Add
        | Op22::Sub
        | Op22::Mul
        | Op22::Div
        | Op22::Mod
        | Op22::Set
        | Op22::Call
        | Op22::Len
        | Op22::Ld
        | Op22::St
        | Op22::New
        | Op22::Tup
        | Op22::Untup
        | Op22::Print => is_marked(marks, at + 1),
    }
}

// Whether a place is one of these.
fn has(places: &[u16], place: u16) -> bool
    ensures { result ≡ has places.now place }
{
    places.contains(&place)
}

// Whether the place is live before an instruction, which leads to a marked position or does not.
fn lives_by(instr: &LowInstr, place: u16, leads: bool) -> bool
    ensures { result ≡ spec.lives_by (split.parts_of instr.now) place leads }
{
    match parts(instr) {
        Some((writes, reads)) => has(reads, place) || (!has(writes, place) && leads),
        None => false,
    }
}

// Whether the place is live at a position, by what is marked.
#[tactic(auto, unfolding(crate::specs::PlaceLives::place_lives))]
fn lives(fun: &LowFun, place: u16, marks: &[bool], at: usize) -> bool
    requires { at < length marks.now }
    ensures { result ≡ place_lives fun.now place marks.now at }
{
    match fun.code.as_slice().get(at) {
        Some(instr) => lives_by(instr, place, leads(instr, marks, fun.labels.as_slice(), at)),
        None => false,
    }
}

// Marks a position at which the place is live. Whether there are more marks than at the start.
fn visit(fun: &LowFun, place: u16, marks: &mut Vec<bool>, at: usize, more: bool) -> bool
    requires { at < length marks.old.items }
    ensures exact { visited fun.now place at (record { marks = marks.old.items; more = more }) ≡ record { marks = marks.new.items; more = result } }
    ensures length { length marks.new.items ≡ length marks.old.items }
{
    if !lives(fun, place, marks.as_slice(), at) || is_marked(marks.as_slice(), at) {
        return more;
    }
    marks[at] = true;
    true
}

// Marks positions from the last one on. Whether there are more marks than before.
#[tactic(auto, unfolding(crate::specs::PlaceLives::passed))]
fn pass(fun: &LowFun, place: u16, marks: &mut Vec<bool>) -> bool
    requires { length marks.old.items ≡ length fun.now.code }
    ensures exact { one_pass fun.now place marks.old.items ≡ record { marks = marks.new.items; more = result } }
    ensures length { length marks.new.items ≡ length marks.old.items }
{
    let mut more = false;
    let mut at = fun.code.as_slice().len();
    'positions: while at > 0 {
        at -= 1;
        more = visit(fun, place, marks, at, more);
    }
    more
}

/// For each position of a function, whether the place is live before the instruction there.
///
/// It goes over the code from its end, and marks positions where the place is read, or from which control comes to a marked one and the place
/// is not written, until there are no more.
pub fn live_positions(alloc: Global, fun: &LowFun, place: u16) -> Result<Vec<bool>, Memory>
    ensures { IfOk result (λ marks. AreLive fun.now place marks.items) }
{
    let mut marks = Vec::from_elem(alloc, false, fun.code.as_slice().len())?;
    'passes: while pass(fun, place, &mut marks) {}
    Ok(marks)
}
