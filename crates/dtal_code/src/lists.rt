//! The text of lists.

ghost use Rattle.std.specs.Prelude.{◌≡◌, ◌++◌, ℕ, List, OnOk};
ghost use Rattle.dtal_code.specs.Spelling.{each_behind, joined};

use crate::pieces::put;
use xan_lin::Memory;

/// What has a text.
pub(crate) trait Piece {
    ghost text: { Self → List ℕ };

    /// Appends it.
    fn put_text(&self, out: &mut Vec<u8>) -> Result<(), Memory>
        ensures { OnOk result (out.new.items ≡ out.old.items ++ text self.now) };
}

// Appends a mark, and the piece behind it.
fn put_behind<T: Piece>(out: &mut Vec<u8>, mark: &[u8], item: &T) -> Result<(), Memory>
    ensures { OnOk result (out.new.items ≡ out.old.items ++ (mark.now ++ T.text item.now)) }
{
    put(out, mark)?;
    item.put_text(out)
}

// Appends pieces, each behind a mark.
#[tactic(auto, using(crate::proofs::Appended::appended), unfolding(crate::specs::Spelling::each_behind))]
fn put_each_behind<T: Piece>(out: &mut Vec<u8>, mark: &[u8], items: &[T]) -> Result<(), Memory>
    ensures { OnOk result (out.new.items ≡ out.old.items ++ each_behind mark.now T.text items.now) }
{
    'items: for item in items {
        put_behind(out, mark, item)?;
    }
    Ok(())
}

/// Appends pieces with a mark between two.
pub(crate) fn put_joined<T: Piece>(
    out: &mut Vec<u8>,
    mark: &[u8],
    items: &[T],
) -> Result<(), Memory>
    ensures { OnOk result (out.new.items ≡ out.old.items ++ joined mark.now T.text items.now) }
{
    let [first, rest @ ..] = items else {
        return Ok(());
    };
    first.put_text(out)?;
    put_each_behind(out, mark, rest)
}
