//! What printing and reading are to each other, as laws that functions without code carry.

ghost use Rattle.std.specs.Prelude.{◌≡◌, ℕ, List, Ok};
ghost use Rattle.xanadu_lexer.specs.Lexing.{lexed};
ghost use Rattle.xanadu_tree.specs.Pieces.{kinds, tokens_from};
ghost use Rattle.xanadu_tree.specs.PlainTree as plain;
ghost use Rattle.xanadu_tree.specs.Printing.{printed};
ghost use Rattle.xanadu_tree.specs.Spelling.{pieces};
ghost use Rattle.xanadu_tree.specs.Unplaced.{ReadsAlike};
ghost use Rattle.xanadu_tree.specs.Written.{IsWritten, Reads};

/// The text of a tree that some source spells, up to its offsets, has the tree's tokens, each where its text stands.
pub fn printed_tokens()
    ensures { (tree : plain.Tree) → IsWritten tree → lexed (printed tree) ≡ Ok (tokens_from 0 (kinds (pieces tree))) }
{}

/// That text is read as the same tree, up to offsets.
pub fn printed_is_read_again()
    ensures { (tree : plain.Tree) → IsWritten tree → ReadsAlike (printed tree) tree }
{}

/// Each tree that the text is read as has the same tokens, up to their places.
pub fn readings_are_alike()
    ensures { (tree other : plain.Tree) → IsWritten tree → Reads (printed tree) other → kinds (pieces other) ≡ kinds (pieces tree) }
{}

/// A tree that a text is read as is one that some source spells: its names and numbers are those of tokens.
pub fn read_trees_are_written()
    ensures { (bytes : List ℕ) (tree : plain.Tree) → Reads bytes tree → IsWritten tree }
{}
