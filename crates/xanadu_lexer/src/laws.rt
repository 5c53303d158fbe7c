//! What the definition of the tokens means, as laws that functions without code carry.

ghost use Rattle.std.specs.Prelude.{◌≡◌, ℕ, List, Result, IfOk};
ghost use Rattle.xanadu_lexer.specs.declared.error.LexError.{LexError};
ghost use Rattle.xanadu_lexer.specs.declared.token.Token.{Token};
ghost use Rattle.xanadu_lexer.specs.Rules.{Lexes, AreSpelledIn};
ghost use Rattle.xanadu_lexer.specs.Lexing.{lexed};

/// The definition answers by the rules.
pub fn lexed_by_the_rules()
    ensures { (bytes : List ℕ) → Lexes 0 bytes (lexed bytes) }
{}

/// The rules allow no other answer: a source has at most one token list or first fault.
pub fn only_one_answer_by_the_rules()
    ensures { (bytes : List ℕ) (answer : Result (List Token) LexError) → Lexes 0 bytes answer → answer ≡ lexed bytes }
{}

/// The text of each token stands at its place.
pub fn tokens_are_spelled()
    ensures { (bytes : List ℕ) → IfOk (lexed bytes) (λ tokens. AreSpelledIn bytes tokens) }
{}
