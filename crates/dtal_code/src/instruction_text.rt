//! The text of instructions.

ghost use Rattle.std.specs.Prelude.{◌≡◌, ◌++◌, OnOk, codes, decimal};
ghost use Rattle.dtal_code.specs.Spelling as spec;
ghost use Rattle.dtal_code.specs.Places.{place_text};

use crate::instruction::{Cmp, Op};
use crate::lists::{Piece, put_joined};
use crate::pieces::{put, put_integer, put_number, put_place};
use xan_lin::{Form, Memory};

impl Piece for u8 {
    ghost text = { place_text };

    fn put_text(&self, out: &mut Vec<u8>) -> Result<(), Memory> {
        put_place(out, u16::from(*self))
    }
}

impl Piece for (u32, Form) {
    ghost text = { spec.value_text };

    #[tactic(auto, using(crate::proofs::Appended::appended))]
    fn put_text(&self, out: &mut Vec<u8>) -> Result<(), Memory> {
        put(out, b"v")?;
        put_number(out, u64::from(self.0))?;
        put(out, b"=")?;
        self.1.write_form(out)
    }
}

/// Appends an instruction without the values that it lists.
pub(crate) fn put_op(out: &mut Vec<u8>, op: &Op) -> Result<(), Memory>
    ensures { OnOk result (out.new.items ≡ out.old.items ++ spec.op_text op.now) }
{
    match op {
        Op::Li(rd, number) => put_li(out, *rd, number),
        Op::Lb(rd, truth) => put_lb(out, *rd, *truth),
        Op::Mv(p, q) => put_two(out, b"mv ", *p, *q),
        Op::Add(rd, ra, rb) => put_three(out, b"add ", *rd, *ra, *rb),
        Op::Sub(rd, ra, rb) => put_three(out, b"sub ", *rd, *ra, *rb),
        Op::Mul(rd, ra, rb) => put_three(out, b"mul ", *rd, *ra, *rb),
        Op::Div(rd, ra, rb) => put_three(out, b"div ", *rd, *ra, *rb),
        Op::Mod(rd, ra, rb) => put_three(out, b"mod ", *rd, *ra, *rb),
        Op::Set(c, rd, ra, rb) => put_set(out, *c, *rd, *ra, *rb),
        Op::Br(c, ra, rb, label) => put_br(out, *c, *ra, *rb, *label),
        Op::Bt(ra, label) => put_way_by(out, b"bt ", *ra, *label),
        Op::Bf(ra, label) => put_way_by(out, b"bf ", *ra, *label),
        Op::Jmp(label) => put_jmp(out, *label),
        Op::Call(fun, p, args) => put_call(out, *fun, *p, args.as_slice()),
        Op::Ret(p) => put_one(out, b"ret ", *p),
        Op::Len(rd, ra) => put_two(out, b"len ", *rd, *ra),
        Op::Ld(rd, ra, ri) => put_three(out, b"ld ", *rd, *ra, *ri),
        Op::St(ra, ri, rv) => put_three(out, b"st ", *ra, *ri, *rv),
        Op::New(rd, cells, rn, rv) => put_new(out, *rd, *cells, *rn, *rv),
        Op::Tup(p, number, parts) => put_tup(out, *p, *number, parts.as_slice()),
        Op::Untup(number, q, parts) => put_untup(out, *number, *q, parts.as_slice()),
        Op::Print(ra) => put_one(out, b"print ", *ra),
    }
}

fn put_one(out: &mut Vec<u8>, word: &[u8], p: u8) -> Result<(), Memory>
    ensures { OnOk result (out.new.items ≡ out.old.items ++ (word.now ++ place_text p)) }
{
    put(out, word)?;
    put_place(out, u16::from(p))
}

#[tactic(auto, using(crate::proofs::Appended::appended))]
fn put_two(out: &mut Vec<u8>, word: &[u8], p: u8, q: u8) -> Result<(), Memory>
    ensures { OnOk result (out.new.items ≡ out.old.items ++ (word.now ++ spec.two_text p q)) }
{
    put_one(out, word, p)?;
    put_one(out, b" ", q)
}

#[tactic(auto, using(crate::proofs::Appended::appended))]
fn put_three(out: &mut Vec<u8>, word: &[u8], p: u8, q: u8, r: u8) -> Result<(), Memory>
    ensures { OnOk result (out.new.items ≡ out.old.items ++ (word.now ++ spec.three_text p q r)) }
{
    put_one(out, word, p)?;
    put_two(out, b" ", q, r)
}

// A number behind a mark.
fn put_behind(out: &mut Vec<u8>, mark: &[u8], number: u32) -> Result<(), Memory>
    ensures { OnOk result (out.new.items ≡ out.old.items ++ (mark.now ++ decimal number)) }
{
    put(out, mark)?;
    put_number(out, u64::from(number))
}

#[tactic(auto, using(crate::proofs::Appended::appended))]
fn put_li(out: &mut Vec<u8>, rd: u8, number: &i64) -> Result<(), Memory>
    ensures { OnOk result (out.new.items ≡ out.old.items ++ spec.op_text (Op.Li rd number.now)) }
{
    put_one(out, b"li ", rd)?;
    put(out, b" ")?;
    put_integer(out, number)
}

#[tactic(auto, using(crate::proofs::Appended::appended))]
fn put_lb(out: &mut Vec<u8>, rd: u8, truth: bool) -> Result<(), Memory>
    ensures { OnOk result (out.new.items ≡ out.old.items ++ spec.op_text (Op.Lb rd truth)) }
{
    put_one(out, b"lb ", rd)?;
    put(out, b" ")?;
    put_truth(out, truth)
}

fn put_truth(out: &mut Vec<u8>, truth: bool) -> Result<(), Memory>
    ensures { OnOk result (out.new.items ≡ out.old.items ++ spec.truth_text truth) }
{
    if truth {
        put(out, b"1")
    } else {
        put(out, b"0")
    }
}

fn put_comparison(out: &mut Vec<u8>, c: Cmp) -> Result<(), Memory>
    ensures { OnOk result (out.new.items ≡ out.old.items ++ spec.comparison_text c) }
{
    match c {
        Cmp::Lt => put(out, b"lt "),
        Cmp::Le => put(out, b"le "),
        Cmp::Eq => put(out, b"eq "),
        Cmp::Ne => put(out, b"ne "),
    }
}

#[tactic(auto, using(crate::proofs::Appended::appended))]
fn put_set(out: &mut Vec<u8>, c: Cmp, rd: u8, ra: u8, rb: u8) -> Result<(), Memory>
    ensures { OnOk result (out.new.items ≡ out.old.items ++ spec.op_text (Op.Set c rd ra rb)) }
{
    put(out, b"set ")?;
    put_comparison(out, c)?;
    put_three(out, b"", rd, ra, rb)
}

#[tactic(auto, using(crate::proofs::Appended::appended))]
fn put_br(out: &mut Vec<u8>, c: Cmp, ra: u8, rb: u8, label: u32) -> Result<(), Memory>
    ensures { OnOk result (out.new.items ≡ out.old.items ++ spec.op_text (Op.Br c ra rb label)) }
{
    put(out, b"br ")?;
    put_comparison(out, c)?;
    put_two(out, b"", ra, rb)?;
    put_behind(out, b" ", label)
}

#[tactic(auto, using(crate::proofs::Appended::appended))]
fn put_way_by(out: &mut Vec<u8>, word: &[u8], ra: u8, label: u32) -> Result<(), Memory>
    ensures { OnOk result (out.new.items ≡ out.old.items ++ (word.now ++ (place_text ra ++ (codes " " ++ decimal label)))) }
{
    put_one(out, word, ra)?;
    put_behind(out, b" ", label)
}

fn put_jmp(out: &mut Vec<u8>, label: u32) -> Result<(), Memory>
    ensures { OnOk result (out.new.items ≡ out.old.items ++ spec.op_text (Op.Jmp label)) }
{
    put_behind(out, b"jmp ", label)
}

// Places in parentheses.
#[tactic(auto, using(crate::proofs::Appended::appended))]
fn put_list(out: &mut Vec<u8>, places: &[u8]) -> Result<(), Memory>
    ensures { OnOk result (out.new.items ≡ out.old.items ++ spec.list_text places.now) }
{
    put(out, b"(")?;
    put_joined(out, b" ", places)?;
    put(out, b")")
}

#[tactic(auto, using(crate::proofs::Appended::appended))]
fn put_call(out: &mut Vec<u8>, fun: u32, p: u8, args: &[u8]) -> Result<(), Memory>
    ensures { OnOk result (out.new.items ≡ out.old.items ++ spec.op_text (Op.Call fun p (record { items = args.now }))) }
{
    put_behind(out, b"call ", fun)?;
    put_one(out, b" ", p)?;
    put(out, b" ")?;
    put_list(out, args)
}

#[tactic(auto, using(crate::proofs::Appended::appended))]
fn put_new(out: &mut Vec<u8>, rd: u8, cells: u32, rn: u8, rv: u8) -> Result<(), Memory>
    ensures { OnOk result (out.new.items ≡ out.old.items ++ spec.op_text (Op.New rd cells rn rv)) }
{
    put_one(out, b"new ", rd)?;
    put_behind(out, b" ", cells)?;
    put_two(out, b" ", rn, rv)
}

#[tactic(auto, using(crate::proofs::Appended::appended))]
fn put_tup(out: &mut Vec<u8>, p: u8, number: u32, parts: &[u8]) -> Result<(), Memory>
    ensures { OnOk result (out.new.items ≡ out.old.items ++ spec.op_text (Op.Tup p number (record { items = parts.now }))) }
{
    put_one(out, b"tup ", p)?;
    put_behind(out, b" ", number)?;
    put(out, b" ")?;
    put_list(out, parts)
}

#[tactic(auto, using(crate::proofs::Appended::appended))]
fn put_untup(out: &mut Vec<u8>, number: u32, q: u8, parts: &[u8]) -> Result<(), Memory>
    ensures { OnOk result (out.new.items ≡ out.old.items ++ spec.op_text (Op.Untup number q (record { items = parts.now }))) }
{
    put_behind(out, b"untup ", number)?;
    put_one(out, b" ", q)?;
    put(out, b" ")?;
    put_list(out, parts)
}

// It goes to a label.
fn has_edge(op: &Op) -> bool
    ensures { result ≡ spec.has_edge op.now }
{
    match op {
        Op::Br(..) | Op::Bt(..) | Op::Bf(..) | Op::Jmp(_) => true,
        _ => false,
    }
}

/// Appends the values that an instruction lists, where it goes to a label.
#[tactic(auto, using(crate::proofs::Appended::appended))]
pub(crate) fn put_way(out: &mut Vec<u8>, op: &Op, values: &[(u32, Form)]) -> Result<(), Memory>
    ensures { OnOk result (out.new.items ≡ out.old.items ++ spec.way_text (spec.has_edge op.now) values.now) }
{
    if has_edge(op) {
        put(out, b" {")?;
        put_joined(out, b",", values)?;
        put(out, b"}")?;
    }
    Ok(())
}
