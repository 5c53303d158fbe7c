//! Constructs that make a value of one or two.

ghost use Rattle.std.specs.Prelude.{◌≡◌, ◌+ℤ◌, ◌-ℤ◌, ◌*ℤ◌};
ghost use Rattle.std.specs.Int.{int_div_euclid, int_rem_euclid};
ghost use Rattle.source_values.specs.Halts.{Gives};
ghost use Rattle.source_values.specs.Values as spec;

use crate::halt::Halt;
use crate::values::{Tag, Value};
use xanadu_tree::{Op, Rel};

/// The exact sum, where it is a word.
fn add(a: &i64, b: &i64) -> Result<Value, Halt>
    ensures { Gives (λ v. v) result (spec.exact (a.now +ℤ b.now)) }
{
    match a.checked_add(*b) {
        Some(word) => Ok(Value::number(&word)),
        None => Err(Halt::Overflow),
    }
}

/// The exact difference, where it is a word.
fn subtract(a: &i64, b: &i64) -> Result<Value, Halt>
    ensures { Gives (λ v. v) result (spec.exact (a.now -ℤ b.now)) }
{
    match a.checked_sub(*b) {
        Some(word) => Ok(Value::number(&word)),
        None => Err(Halt::Overflow),
    }
}

/// The exact product, where it is a word.
fn multiply(a: &i64, b: &i64) -> Result<Value, Halt>
    ensures { Gives (λ v. v) result (spec.exact (a.now *ℤ b.now)) }
{
    match a.checked_mul(*b) {
        Some(word) => Ok(Value::number(&word)),
        None => Err(Halt::Overflow),
    }
}

/// The floor of the quotient.
fn divide(a: &i64, b: &i64) -> Result<Value, Halt>
    ensures { Gives (λ v. v) result (spec.divided int_div_euclid a.now b.now) }
{
    if *b < 1 {
        return Err(Halt::Stuck);
    }
    Ok(Value::number(&a.div_euclid(*b)))
}

/// What the quotient leaves.
fn remain(a: &i64, b: &i64) -> Result<Value, Halt>
    ensures { Gives (λ v. v) result (spec.divided int_rem_euclid a.now b.now) }
{
    if *b < 1 {
        return Err(Halt::Stuck);
    }
    Ok(Value::number(&a.rem_euclid(*b)))
}

/// What an operator makes of two numbers.
fn operate(op: Op, a: &i64, b: &i64) -> Result<Value, Halt>
    ensures { Gives (λ v. v) result (spec.operated op a.now b.now) }
{
    match op {
        Op::Add => add(a, b),
        Op::Sub => subtract(a, b),
        Op::Mul => multiply(a, b),
        Op::Div => divide(a, b),
        Op::Mod => remain(a, b),
    }
}

/// What an operator makes of two values.
pub fn join(op: Op, a: &Value, b: &Value) -> Result<Value, Halt>
    ensures { Gives (λ v. v) result (spec.joined op a.now b.now) }
{
    let Some(a) = a.word_in(Tag::Number) else {
        return Err(Halt::Stuck);
    };
    let Some(b) = b.word_in(Tag::Number) else {
        return Err(Halt::Stuck);
    };
    operate(op, &a, &b)
}

/// 0 less the value.
pub fn negate(v: &Value) -> Result<Value, Halt>
    ensures { Gives (λ v. v) result (spec.negated v.now) }
{
    let zero = Value::number(&0);
    join(Op::Sub, &zero, v)
}

/// Whether the comparison holds.
fn holds(rel: Rel, a: &i64, b: &i64) -> bool
    ensures { result ≡ spec.holds_of rel a.now b.now }
{
    match rel {
        Rel::Lt => *a < *b,
        Rel::Le => *a <= *b,
        Rel::Gt => *b < *a,
        Rel::Ge => *b <= *a,
        Rel::Eq => *a == *b,
        Rel::Ne => *a != *b,
    }
}

/// Whether the comparison of two values holds, as a value.
pub fn relate(rel: Rel, a: &Value, b: &Value) -> Result<Value, Halt>
    ensures { Gives (λ v. v) result (spec.related rel a.now b.now) }
{
    let Some(a) = a.word_in(Tag::Number) else {
        return Err(Halt::Stuck);
    };
    let Some(b) = b.word_in(Tag::Number) else {
        return Err(Halt::Stuck);
    };
    Ok(Value::truth(holds(rel, &a, &b)))
}
