//! The laws of families of readers over symbols of any kind, by a room, as contracts of functions that do nothing. The
//! lists have no bound: the symbols that remain are room enough.

ghost use Rattle.std.specs.Prelude.{◌≡◌, ◌≤◌, ℕ, suc, ◌+◌, List, ◌∷◌, ◌++◌, length, Option, Some, None, Result};
ghost use Rattle.xan_read.specs.Reader.{Exact};
ghost use Rattle.xan_read.specs.Rooms.{ExactWithin, Example};
ghost use Rattle.xan_read.specs.Combinators.{in_turn, InTurn, made, IsMade};
ghost use Rattle.xan_read.specs.Symbols as symbols;

/// A language of texts for values `V` over symbols `S`, a reader for each room, and what may follow a text.
pub trait Family<S, V> {
    ghost reads: { ℕ → List S → Result (V × List S) ℕ };

    ghost spells: { V → List S → Type 0 };

    ghost follows: { List S → Type 0 };
}

/// The same for each value of `V`: what is read behind it.
pub trait FamilyBehind<S, V, W> {
    ghost reads: { V → ℕ → List S → Result (W × List S) ℕ };

    ghost spells: { V → W → List S → Type 0 };

    ghost follows: { List S → Type 0 };
}

/// Two in turn; the first text makes up for what the second's slack lacks.
pub fn within_in_turn<S, V, W, P: Family<S, V>, Q: FamilyBehind<S, V, W>>()
    ensures { (most slack inner : ℕ) → ExactWithin most slack P.reads P.spells P.follows
        → ((x : V) (front : List S) → P.spells x front → ExactWithin most inner (Q.reads x) (Q.spells x) Q.follows)
        → ((x : V) (front : List S) → P.spells x front → slack ≤ length front + inner)
        → ((x : V) (y : W) (back rest : List S) → Q.spells x y back → Q.follows rest → P.follows (back ++ rest))
        → ExactWithin most slack (λ room. in_turn (P.reads room) (λ x. Q.reads x room)) (InTurn P.spells Q.spells) Q.follows }
{}

/// A symbol of a table that decides: where it comes, the first goes on behind it, and else the second reads.
pub fn within_where_comes<S, T, V, P: FamilyBehind<S, T, V>, Q: Family<S, V>>()
    ensures { (most slack inner : ℕ) (table : symbols.TableOf S T)
        → ((a : T) → ExactWithin most inner (P.reads a) (P.spells a) P.follows) → ExactWithin most slack Q.reads Q.spells Q.follows
        → slack ≤ suc inner
        → ((x : V) (text rest : List S) → Q.spells x text → P.follows rest → Q.follows rest × (symbols.eat table (text ++ rest) ≡ None))
        → ExactWithin most slack (λ room. symbols.where_comes table (λ a. P.reads a room) (Q.reads room)) (symbols.WhereComes table P.spells Q.spells) P.follows }
{}

/// Items, each behind a symbol of a table, after those that were found.
pub fn within_repeated<S, T, V, P: FamilyBehind<S, T, V>, Q: Family<S, V>>()
    ensures { (most slack inner : ℕ) (table : symbols.TableOf S T) (found : List V)
        → ((a : T) → ExactWithin most inner (P.reads a) (P.spells a) P.follows) → slack ≤ suc inner
        → ((symbol : S) (a : T) (rest : List S) → table symbol ≡ Some a → P.follows (symbol ∷ rest))
        → ((rest : List S) → Q.follows rest → P.follows rest × (symbols.eat table rest ≡ None))
        → ExactWithin most slack (λ room. symbols.repeated table (λ a. P.reads a room) found) (symbols.IsRepeated table P.spells found) Q.follows }
{}

/// Items up to a symbol of a table. An item has a symbol, and begins with none of the table.
pub fn within_until<S, T, V, P: Family<S, V>, Q: Family<S, V>>()
    ensures { (most slack : ℕ) (end : symbols.TableOf S T) → ExactWithin most slack P.reads P.spells P.follows
        → Example {A = Unit {0}} (λ _. symbols.IsEnd end)
        → ((x : V) (front : List S) → P.spells x front → 1 ≤ length front)
        → ((x : V) (front rest : List S) → P.spells x front → symbols.eat end (front ++ rest) ≡ None)
        → ((x : V) (front rest : List S) → P.spells x front → P.follows (front ++ rest))
        → ((symbol : S) (a : T) (rest : List S) → end symbol ≡ Some a → P.follows (symbol ∷ rest))
        → ExactWithin most slack (λ room. symbols.until end (P.reads room)) (symbols.Closed end P.spells) Q.follows }
{}

/// A value that is made of what is read.
pub fn within_made<S, V, W, P: Family<S, V>>()
    ensures { (most slack : ℕ) (make : V → W) → ExactWithin most slack P.reads P.spells P.follows
        → ExactWithin most slack (λ room. made make (P.reads room)) (IsMade make P.spells) P.follows }
{}
