//! The laws of exact readers, as contracts of functions that do nothing. Each speaks of every language, every reader
//! and all bytes: a bound stands for the language, and no code ever has to implement it.

ghost use Rattle.std.specs.Prelude.{◌≡◌, ◌≢◌, ◌≤◌, ◌<◌, ◌^◌, ℕ, List, [], ◌∷◌, ◌++◌, Result, None, true, decimal, Bool, false};
ghost use Rattle.xan_read.specs.Reader.{Exact, ReadsWhole};
ghost use Rattle.xan_read.specs.Combinators.{give, IsGiven, in_turn, InTurn, behind, IsBehind, where_comes, WhereComes, after, next_passes, by_next, Either};
ghost use Rattle.xan_read.specs.Lists.{repeated, IsRepeated, separated, IsSeparated, closed, IsClosed, Ends};
ghost use Rattle.xan_read.specs.Words.{Table, word, IsWord, prefix_free};
ghost use Rattle.xan_read.specs.Numbers.{number, IsNumber, NoDigit};
ghost use Rattle.xan_read.specs.Integers.{integer, IsInteger, signed, IsSigned};
ghost use Rattle.xan_read.specs.Names.{name, IsName, NoName};
ghost use Rattle.xan_read.specs.Spelled.{Any, Spelled, IsBetween};

/// A language of texts for values `V`, a reader, and what may follow a text.
pub trait Language<V> {
    ghost reads: { List ℕ → Result (V × List ℕ) ℕ };

    ghost spells: { V → List ℕ → Type 0 };

    ghost follows: { List ℕ → Type 0 };
}

/// The same for each value of `V`: what is read behind it.
pub trait Behind<V, W> {
    ghost reads: { V → List ℕ → Result (W × List ℕ) ℕ };

    ghost spells: { V → W → List ℕ → Type 0 };

    ghost follows: { List ℕ → Type 0 };
}

/// Values that have a spelling, what is known of them already, and that spelling.
pub trait Spelling<V> {
    ghost known: { V → Type 0 };

    ghost fits: { V → Type 0 };

    ghost spelling: { V → List ℕ };
}

/// What is read is spelled so; what is spelled so is read; where reading fails, the good part begins some text and one
/// byte more begins none; and a text spells at most one value.
pub fn exact_reads_whole<V, P: Language<V>>()
    ensures { Exact P.reads P.spells P.follows → P.follows [] → ReadsWhole P.reads P.spells }
{}

/// Another name for the language.
pub fn exact_as<V, P: Language<V>, Q: Language<V>>()
    ensures { Exact P.reads P.spells P.follows
        → ((x : V) (text : List ℕ) → P.spells x text → Q.spells x text)
        → ((x : V) (text : List ℕ) → Q.spells x text → P.spells x text)
        → ((rest : List ℕ) → Q.follows rest → P.follows rest)
        → Exact P.reads Q.spells Q.follows }
{}

/// A value without symbols.
pub fn exact_give<V>()
    ensures { (x : V) → Exact {S = ℕ} (give x) (IsGiven x) (λ _. Unit {0}) }
{}

/// Two in turn: what is read second may depend on the first value, and what may follow the first is what the second and
/// what follows it begin with.
pub fn exact_in_turn<V, W, P: Language<V>, Q: Behind<V, W>>()
    ensures { Exact P.reads P.spells P.follows
        → ((x : V) (front : List ℕ) → P.spells x front → Exact (Q.reads x) (Q.spells x) Q.follows)
        → ((x : V) (y : W) (back rest : List ℕ) → Q.spells x y back → Q.follows rest → P.follows (back ++ rest))
        → Exact (in_turn P.reads Q.reads) (InTurn P.spells Q.spells) Q.follows }
{}

/// A literal in front.
pub fn exact_behind<V, P: Language<V>>()
    ensures { (text : List ℕ) → Exact P.reads P.spells P.follows
        → Exact (behind text P.reads) (IsBehind text P.spells) P.follows }
{}

/// A byte that decides: where it comes, the first production goes on behind it, and else the second reads, which never
/// begins with it.
pub fn exact_where_comes<V, P: Language<V>, Q: Language<V>>()
    ensures { (c : ℕ) → Exact P.reads P.spells P.follows → Exact Q.reads Q.spells Q.follows
        → ((x : V) (text rest : List ℕ) → Q.spells x text → P.follows rest → Q.follows rest × (after c (text ++ rest) ≡ None))
        → Exact (where_comes c P.reads Q.reads) (WhereComes c P.spells Q.spells) P.follows }
{}

/// A choice by the next byte: the texts of the first production begin with a byte that passes the test, and those of the
/// second with what follows them do not.
pub fn exact_by_next<V, P: Language<V>, Q: Language<V>>()
    ensures { (test : ℕ → Bool) → Exact P.reads P.spells P.follows → Exact Q.reads Q.spells Q.follows
        → ((x : V) (text rest : List ℕ) → P.spells x text → P.follows rest → next_passes test (text ++ rest) ≡ true)
        → ((x : V) (text rest : List ℕ) → Q.spells x text → P.follows rest → Q.follows rest × (next_passes test (text ++ rest) ≡ false))
        → Exact (by_next test P.reads Q.reads) (Either P.spells Q.spells) P.follows }
{}

/// At most `room` items, each behind a byte `c`.
pub fn exact_repeated<V, P: Language<V>>()
    ensures { (c room : ℕ) → Exact P.reads P.spells P.follows → ((rest : List ℕ) → P.follows (c ∷ rest))
        → Exact (repeated c room P.reads) (IsRepeated c room P.spells) (Ends P.follows c) }
{}

/// An item, and at most `room` more with a byte `c` in front of each.
pub fn exact_separated<V, P: Language<V>>()
    ensures { (c room : ℕ) → Exact P.reads P.spells P.follows → ((rest : List ℕ) → P.follows (c ∷ rest))
        → Exact (separated c room P.reads) (IsSeparated c room P.spells) (Ends P.follows c) }
{}

/// At most `room` items with a byte `c` between two and a byte `end` behind the last.
pub fn exact_closed<V, P: Language<V>>()
    ensures { (c end room : ℕ) → Exact P.reads P.spells P.follows → ((rest : List ℕ) → P.follows (c ∷ rest))
        → (end ≢ c) → ((rest : List ℕ) → P.follows (end ∷ rest))
        → ((x : V) (text rest : List ℕ) → P.spells x text → after end (text ++ rest) ≡ None)
        → Exact (closed c end room P.reads) (IsClosed c end room P.spells) (λ _. Unit {0}) }
{}

/// A table of words, none of which begins another. With [`exact_in_turn`] it is a table of productions by keyword.
pub fn exact_word<V>()
    ensures { (entry : List ℕ × V) (table : Table V) → prefix_free (entry ∷ table) ≡ true
        → Exact (word (entry ∷ table)) (IsWord (entry ∷ table)) (λ _. Unit {0}) }
{}

/// Names that are none of the words.
pub fn exact_name()
    ensures { (words : List (List ℕ)) → Exact (name words) (IsName words) NoName }
{}

/// Numbers of a range.
pub fn exact_number()
    ensures { (low high : ℕ) → low ≤ high → high < 2 ^ 64 → Exact (number low high) (IsNumber low high) NoDigit }
{}

/// Integers of a range, with `-` where they are negative.
pub fn exact_integer()
    ensures { (below above : ℕ) → 1 ≤ below → below < 2 ^ 64 → above < 2 ^ 64
        → Exact (integer below above) (IsInteger below above) NoDigit }
{}

/// Integers with a sign always, of a range behind the sign.
pub fn exact_signed()
    ensures { (low high : ℕ) → 1 ≤ high → low ≤ high → high < 2 ^ 64
        → Exact (signed low high) (IsSigned low high) NoDigit }
{}

/// Numbers of a range, as a language with one spelling a value.
pub fn spelled_number()
    ensures { (low high : ℕ) → low ≤ high → high < 2 ^ 64
        → Exact (number low high) (Spelled Any (IsBetween low high) decimal) NoDigit }
{}

/// A literal in front of the spelling.
pub fn spelled_behind<V, P: Language<V>, S: Spelling<V>>()
    ensures { (text : List ℕ) → Exact P.reads (Spelled S.known S.fits S.spelling) P.follows
        → Exact (behind text P.reads) (Spelled S.known S.fits (λ y. text ++ S.spelling y)) P.follows }
{}

/// One field of a value, and then the rest of it, where that field is known.
pub fn spelled_field<V, W, P: Language<V>, Q: Behind<V, W>, S: Spelling<V>, T: Spelling<W>>()
    ensures { (field : W → V) → Exact P.reads (Spelled Any S.fits S.spelling) P.follows
        → ((x : V) → S.fits x → Exact (Q.reads x) (Spelled (λ y. T.known y × (field y ≡ x)) T.fits T.spelling) Q.follows)
        → ((y : W) (rest : List ℕ) → T.fits y → Q.follows rest → P.follows (T.spelling y ++ rest))
        → Exact (in_turn P.reads Q.reads) (Spelled T.known (λ y. S.fits (field y) × T.fits y) (λ y. S.spelling (field y) ++ T.spelling y)) Q.follows }
{}

/// The last field, which makes the value with what is known.
pub fn spelled_last<V, W, P: Language<V>, S: Spelling<V>, T: Spelling<W>>()
    ensures { (field : W → V) (make : V → W) → Exact P.reads (Spelled Any S.fits S.spelling) P.follows
        → ((x : V) → T.known (make x)) → ((x : V) → field (make x) ≡ x) → ((y : W) → T.known y → y ≡ make (field y))
        → Exact (in_turn P.reads (λ x. give (make x))) (Spelled T.known (λ y. S.fits (field y)) (λ y. S.spelling (field y))) P.follows }
{}
