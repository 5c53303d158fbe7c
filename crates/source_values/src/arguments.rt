//! Arguments become values and blocks.

ghost use Rattle.std.specs.Prelude.{◌≡◌, [], map, IfOk};
ghost use Rattle.source_values.specs.Halts.{Gives};
ghost use Rattle.source_values.specs.Placing as spec;
ghost use Rattle.typed_core.specs.SourceValues.{number};

use crate::cells::Store;
use crate::halt::Halt;
use crate::values::Value;
use std::alloc::{AllocError, Global};
use xan_io::Arg;

/// Numbers as values.
fn numbers(alloc: Global, cells: &[i64]) -> Result<Vec<Value>, AllocError>
    ensures { IfOk result (λ made. made.items ≡ map number cells.now) }
{
    let mut made = Vec::new(alloc);
    for cell in cells {
        made.push(Value::number(cell))?;
    }
    Ok(made)
}

/// The value of an argument; an array goes to the store, where it has room.
fn place_argument(alloc: Global, arg: &Arg, store: &mut Store) -> Result<Value, Halt>
    ensures { Gives (λ v. (v, store.new)) result (spec.value_placed arg.now store.old) }
{
    match arg {
        Arg::Int(number) => Ok(Value::number(number)),
        Arg::Bool(truth) => Ok(Value::truth(*truth)),
        Arg::Array(cells) => {
            let cells = numbers(alloc, cells.as_slice())?;
            store.make_numbers(cells)
        }
    }
}

/// The values of arguments, in order, whose arrays go to the store.
#[tactic(auto, unfolding(crate::specs::Placing::values_placed))]
pub fn place_arguments(alloc: Global, args: &[Arg], store: &mut Store) -> Result<Vec<Value>, Halt>
    ensures { Gives (λ values. (values.items, store.new)) result (spec.values_placed [] args.now store.old) }
{
    let mut values = Vec::new(alloc);
    let mut left = args;
    'each: while let [arg, more @ ..] = left {
        let value = place_argument(alloc, arg, store)?;
        let Ok(()) = values.push(value) else {
            return Err(Halt::Memory);
        };
        left = more;
    }
    Ok(values)
}
