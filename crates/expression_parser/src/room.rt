//! Room for the lists of a tree.

ghost use Rattle.std.specs.Prelude.{◌≡◌, [], ◌∷◌, ◌++◌, IfOk};
ghost use Rattle.expression_parser.specs.Adds.{Adds};

use crate::stop::Stop;
use std::alloc::AllocError;
use xanadu_tree::Op;

/// Puts an item behind the others. Where the list is full it takes room for one more, or for a quarter more where that is more: most lists of
/// a tree are short, and its nodes are large.
pub(crate) fn push_closely<T: Drop>(list: &mut Vec<T>, item: T) -> Result<(), AllocError>
    ensures items { IfOk result (λ _. list.new.items ≡ list.old.items ++ item ∷ []) }
{
    let len = list.len();
    if len == list.capacity() {
        list.reserve_exact(len / 4 + 1)?;
    }
    let Ok(()) = list.push(item) else {
        return Err(AllocError);
    };
    Ok(())
}

/// Puts what was read behind the others, or says again why nothing was read.
pub fn push_read<T: Drop>(list: &mut Vec<T>, read: Result<T, Stop>) -> Result<(), Stop>
    ensures { Adds (λ x. x) read list.old.items list.new.items result }
{
    match read {
        Ok(item) => Ok(push_closely(list, item)?),
        Err(stop) => Err(stop),
    }
}

/// The same, with the offset of the mark before it.
pub(crate) fn push_placed<T: Drop>(
    list: &mut Vec<(T, u32)>,
    read: Result<T, Stop>,
    at: u32,
) -> Result<(), Stop>
    ensures { Adds (λ x. (x, at)) read list.old.items list.new.items result }
{
    match read {
        Ok(item) => Ok(push_closely(list, (item, at))?),
        Err(stop) => Err(stop),
    }
}

/// The same, with the operator before it and the offset of that.
pub(crate) fn push_operand<T: Drop>(
    list: &mut Vec<(Op, T, u32)>,
    op: Op,
    read: Result<T, Stop>,
    at: u32,
) -> Result<(), Stop>
    ensures { Adds (λ x. (op, x, at)) read list.old.items list.new.items result }
{
    match read {
        Ok(item) => Ok(push_closely(list, (op, item, at))?),
        Err(stop) => Err(stop),
    }
}
