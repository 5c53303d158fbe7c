//! Types of words stay where a store grows and where cells are written.

ghost use Rattle.std.specs.Prelude.{◌≡◌, ℕ, ◌+◌, ◌<◌, ℤ, List, ◌++◌, Some, slice_set};
ghost use Rattle.state_types.specs.Words.{Headers, Header, header_at, cell_count, HasType, Keeps};
ghost use Rattle.state_types.specs.declared.types.Ty.{Ty};

/// Words keep their types where headers stay.
pub fn words_keep_their_types()
    ensures { (old new : Headers) (assignment : List ℤ) (word : ℤ) (ty : Ty) → Keeps old new → HasType old assignment word ty
        → HasType new assignment word ty }
{}

/// Headers stay where words are appended to a store.
pub fn appended_words_keep_headers()
    ensures { (words more : List ℤ) → Keeps (header_at words) (header_at (words ++ more)) }
{}

/// Headers stay where a cell of a block is written.
pub fn written_cells_keep_headers()
    ensures { (words : List ℤ) (block index address : ℕ) (header : Header) (word : ℤ) → header_at words block ≡ Some header
        → index < cell_count header.cells → header_at (slice_set words (block + 2 + index) word) address ≡ header_at words address }
{}
