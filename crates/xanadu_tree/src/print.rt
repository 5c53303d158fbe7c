//! A tree as text: its tokens, a space behind each.

mod declaration;
mod expression;
mod index;
mod list;
mod statement;
mod token;
mod types;

ghost use Rattle.std.specs.Prelude.{◌≡◌, IfOk, Ok};
ghost use Rattle.xanadu_lexer.specs.Lexing.{lexed};
ghost use Rattle.xanadu_tree.specs.Pieces.{kinds, tokens_from};
ghost use Rattle.xanadu_tree.specs.PlainTreeOf.{plain_tree};
ghost use Rattle.xanadu_tree.specs.Printing.{printed};
ghost use Rattle.xanadu_tree.specs.Spelling.{pieces};
ghost use Rattle.xanadu_tree.specs.Unplaced.{ReadsAlike};
ghost use Rattle.xanadu_tree.specs.Written.{IsWritten};

use crate::print::declaration::put_declarations;
use crate::tree::Tree;
use std::alloc::Global;
use xan_io::Memory;

/// The tokens of the tree, a space behind each, and a newline at the end. Where some source spells the tree, up to its offsets, the
/// text has the tree's tokens, and is read as the same tree up to offsets. `Memory` comes where memory ran out.
#[tactic(auto, using(crate::proofs::StatementTexts::statement_texts))]
pub fn print_tree(alloc: Global, tree: &Tree) -> Result<Vec<u8>, Memory>
    ensures exact { IfOk result (λ bytes. bytes.items ≡ printed (plain_tree tree.now)) }
    ensures read_back { IsWritten (plain_tree tree.now) → IfOk result (λ bytes. lexed bytes.items ≡ Ok (tokens_from 0 (kinds (pieces (plain_tree tree.now))))) }
    ensures read_again { IsWritten (plain_tree tree.now) → IfOk result (λ bytes. ReadsAlike bytes.items (plain_tree tree.now)) }
{
    let mut out = Vec::new(alloc);
    put_declarations(&mut out, tree.declarations.as_slice())?;
    out.push(b'\n')?;
    Ok(out)
}
