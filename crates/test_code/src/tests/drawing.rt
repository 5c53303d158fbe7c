//! Typed code as text: for each function the number of its places, then each label with its position, its variables, its rows and the types
//! of its places, and then each instruction with what stands with it.

use state_types::{StateType, Ty};
use three_address::{Edge, LowFun, LowInstr, Op22, ProvedRow, Typed};
use xan_lin::Form;
use xan_read::push_integer;
use xan_seq::Seq;

// Bytes behind the text.
fn put(out: &mut Vec<u8>, text: &[u8]) -> Option<()> {
    out.extend_from_slice(text).ok()
}

// A number behind a sign that says what it is.
fn put_number(out: &mut Vec<u8>, sign: &[u8], number: i64) -> Option<()> {
    put(out, sign)?;
    push_integer(out, number).ok()
}

// A form behind such a sign.
fn put_form(out: &mut Vec<u8>, sign: &[u8], form: &Form) -> Option<()> {
    put(out, sign)?;
    form.write_form(out).ok()
}

// A type, with its index.
fn put_type(out: &mut Vec<u8>, ty: &Ty) -> Option<()> {
    match ty {
        Ty::Int(index) => put_form(out, b" int ", index),
        Ty::Bool => put(out, b" bool"),
        Ty::Array(id, index) => {
            put_number(out, b" array ", i64::from(*id))?;
            put_form(out, b" ", index)
        }
        Ty::Named(id) => put_number(out, b" named ", i64::from(*id)),
    }
}

// A label's position and state.
fn put_state(out: &mut Vec<u8>, position: u32, state: &StateType) -> Option<()> {
    put_number(out, b"@", i64::from(position))?;
    put_number(out, b" vars ", i64::from(state.ctx.vars()))?;
    for row in state.ctx.rows() {
        put_form(out, b"; ", row)?;
    }
    for (place, ty) in state.places.entries() {
        put_number(out, b" | ", i64::from(*place))?;
        put_type(out, ty)?;
    }
    put(out, b"\n")
}

// The word of an instruction.
fn word(op: Op22) -> &'static [u8] {
    match op {
        Op22::Li => b"li",
        Op22::Lb => b"lb",
        Op22::Mv => b"mv",
        Op22::Add => b"add",
        Op22::Sub => b"sub",
        Op22::Mul => b"mul",
        Op22::Div => b"div",
        Op22::Mod => b"mod",
        Op22::Set => b"set",
        Op22::Br => b"br",
        Op22::Bt => b"bt",
        Op22::Bf => b"bf",
        Op22::Jmp => b"jmp",
        Op22::Call => b"call",
        Op22::Ret => b"ret",
        Op22::Len => b"len",
        Op22::Ld => b"ld",
        Op22::St => b"st",
        Op22::New => b"new",
        Op22::Tup => b"tup",
        Op22::Untup => b"untup",
        Op22::Print => b"print",
    }
}

// An instruction: its word and places, and behind them what is not 0.
fn put_instr(out: &mut Vec<u8>, instr: &LowInstr) -> Option<()> {
    put(out, word(instr.op))?;
    for place in instr.places.as_slice() {
        put_number(out, b" ", i64::from(*place))?;
    }
    if instr.number != 0 {
        put_number(out, b" #", instr.number)?;
    }
    if instr.target != 0 {
        put_number(out, b" >", i64::from(instr.target))?;
    }
    Some(())
}

// A row that is proved, with the place that demands it. A row without lines is not proved.
fn put_proved(out: &mut Vec<u8>, row: &ProvedRow) -> Option<()> {
    match row.place {
        Some(place) => put_number(out, b"; ", i64::from(place))?,
        None => put(out, b";")?,
    }
    if row.lines.as_slice().is_empty() {
        put(out, b" unproved")?;
    }
    put_form(out, b" by ", &row.row)
}

// What stands with an instruction.
fn put_edge(out: &mut Vec<u8>, edge: &Edge) -> Option<()> {
    for (variable, value) in edge.values.as_slice() {
        put_number(out, b"; v", i64::from(*variable))?;
        put_form(out, b" = ", value)?;
    }
    for row in edge.by.as_slice() {
        put_proved(out, row)?;
    }
    put(out, b"\n")
}

// The labels of a function.
fn put_states(out: &mut Vec<u8>, positions: &[u32], states: &[StateType]) -> Option<()> {
    for (position, state) in positions.iter().zip(states) {
        put_state(out, *position, state)?;
    }
    Some(())
}

// Its instructions.
fn put_code(out: &mut Vec<u8>, code: &[LowInstr], edges: &[Edge]) -> Option<()> {
    for (instr, edge) in code.iter().zip(edges) {
        put_instr(out, instr)?;
        put_edge(out, edge)?;
    }
    Some(())
}

// A function. What has not as many states as labels, or as many edges as instructions, has no text.
fn put_function(
    out: &mut Vec<u8>,
    fun: &LowFun,
    states: &[StateType],
    edges: &[Edge],
) -> Option<()> {
    if states.len() != fun.labels.as_slice().len() || edges.len() != fun.code.as_slice().len() {
        return None;
    }
    put(out, fun.name.bytes())?;
    put_number(out, b" ", i64::from(fun.places))?;
    put(out, b"\n")?;
    put_states(out, fun.labels.as_slice(), states)?;
    put_code(out, fun.code.as_slice(), edges)
}

// All functions.
fn put_functions(
    out: &mut Vec<u8>,
    funs: &[LowFun],
    states: &[Seq<StateType>],
    edges: &[Seq<Edge>],
) -> Option<()> {
    if states.len() != funs.len() || edges.len() != funs.len() {
        return None;
    }
    for (fun, (known, beside)) in funs.iter().zip(states.iter().zip(edges)) {
        put_function(out, fun, known.as_slice(), beside.as_slice())?;
    }
    Some(())
}

/// Typed code behind the text.
pub(crate) fn put_typed(out: &mut Vec<u8>, typed: &Typed) -> Option<()> {
    put_functions(
        out,
        typed.low.funs.as_slice(),
        typed.states.as_slice(),
        typed.edges.as_slice(),
    )
}
