//! Lists of parts with commas between them.

ghost use Rattle.std.specs.Prelude.{◌≡◌, ◌++◌, OnOk};
ghost use Rattle.xanadu_tree.specs.Printing.{listed};

use crate::print::token::put_comma_unless;
use xan_io::Memory;

/// A part that stands in lists.
pub(super) trait Part {
    ghost use Rattle.std.specs.Prelude.{ℕ, List};

    /// Its text.
    ghost text: { Self → List ℕ };

    /// Puts its text.
    fn put(&self, out: &mut Vec<u8>) -> Result<(), Memory>
        ensures { OnOk result (out.new.items ≡ out.old.items ++ text self.now) };
}

pub(super) fn put_list<T: Part>(out: &mut Vec<u8>, parts: &[T]) -> Result<(), Memory>
    ensures { OnOk result (out.new.items ≡ out.old.items ++ listed T.text parts.now) }
{
    let mut is_first = true;
    for part in parts {
        put_comma_unless(out, is_first)?;
        part.put(out)?;
        is_first = false;
    }
    Ok(())
}
