//! What the definitions mean, as laws that functions without code carry.

ghost use Rattle.std.specs.Prelude.{◌≡◌, ℕ, List};
ghost use Rattle.xanadu_lexer.specs.declared.token.Token.{Token};
ghost use Rattle.xanadu_tree.specs.PlainTree as plain;
ghost use Rattle.xanadu_tree.specs.Written.{Parses};

/// Tokens spell at most one tree.
pub fn tokens_spell_one_tree()
    ensures { (tokens : List Token) (end : ℕ) (tree other : plain.Tree) → Parses tokens end tree → Parses tokens end other → tree ≡ other }
{}
