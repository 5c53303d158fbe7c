//! The variables of a function.

ghost use Rattle.std.specs.Prelude.{◌≡◌, ◌++◌, ◌-◌, map, replicate, length, slice_get, Some, None, IfOk};
ghost use Rattle.source_values.specs.Halts.{Gives};
ghost use Rattle.source_values.specs.Variables as spec;
ghost use Rattle.typed_core.specs.SourceValues.{Value as Plain};

use crate::halt::Halt;
use crate::values::Value;
use std::alloc::{AllocError, Global};
use std::marker::Model;

/// The variables of a function by number; one to which nothing was assigned has no value.
#[derive(Drop)]
pub struct Variables {
    slots: Vec<Option<Value>>,
}

impl Model for Variables {
    ghost use Rattle.typed_core.specs.SourceRuns.{Env};

    ghost Value = { Env };

    ghost view = { λ variables. variables.slots.items };
}

/// The values of arguments, each as that of a variable.
fn of_arguments(alloc: Global, args: &[Value]) -> Result<Vec<Option<Value>>, AllocError>
    ensures { IfOk result (λ slots. slots.items ≡ map Some args.now) }
{
    let mut slots = Vec::new(alloc);
    for arg in args {
        slots.push(Some(arg.copy()))?;
    }
    Ok(slots)
}

/// So many variables more, without values.
#[tactic(auto, using(crate::proofs::Unset::replicate_more))]
fn add_unset(slots: &mut Vec<Option<Value>>, count: usize) -> Result<(), AllocError>
    ensures { IfOk result (λ _. slots.new.items ≡ slots.old.items ++ replicate count None) }
{
    for _turn in 0..count {
        slots.push(None)?;
    }
    Ok(())
}

impl Variables {
    /// The variables where a function begins: its arguments, and the others without values.
    pub fn new(alloc: Global, args: &[Value], count: usize) -> Result<Variables, AllocError>
        ensures { IfOk result (λ made. made ≡ map Some args.now ++ replicate (count - length args.now) None) }
    {
        let mut slots = of_arguments(alloc, args)?;
        add_unset(&mut slots, count.saturating_sub(args.len()))?;
        Ok(Variables { slots })
    }

    /// The value of a variable.
    pub fn read(&self, x: u32) -> Result<Value, Halt>
        ensures { Gives (λ v. v) result (spec.read_of (slice_get self.now x)) }
    {
        match self.slots.get(x as usize) {
            Some(Some(value)) => Ok(value.copy()),
            Some(None) | None => Err(Halt::Stuck),
        }
    }

    /// The variable gets the value.
    pub fn set(&mut self, x: u32, value: Value) -> Result<(), Halt>
        ensures { Gives (λ _. self.new) result (spec.set_variable self.old x value) }
    {
        let at = x as usize;
        if at < self.slots.len() {
            self.slots[at] = Some(value);
            return Ok(());
        }
        Err(Halt::Stuck)
    }
}

/// As many variables as values get them, each its own.
#[tactic(auto, unfolding(crate::specs::Variables::set_all))]
pub fn set_all(variables: &mut Variables, mut xs: &[u32], mut values: &[Value]) -> Result<(), Halt>
    ensures { Gives (λ _. variables.new) result (spec.set_all variables.old xs.entry.now values.entry.now) }
{
    while let [x, later @ ..] = xs {
        let [value, others @ ..] = values else {
            return Err(Halt::Stuck);
        };
        variables.set(*x, value.copy())?;
        xs = later;
        values = others;
    }
    if values.is_empty() {
        Ok(())
    } else {
        Err(Halt::Stuck)
    }
}
