//! Runs of the code over places, and its live places.

ghost use Rattle.std.specs.Prelude.{◌≡◌, ◌↔◌, ℕ, ◌<◌, List, length, Bool as Truth, true, Some};
ghost use Rattle.xan_io.specs.Agreement.{IsSteady};
ghost use Rattle.xan_io.specs.declared.arg.Arg.{Arg};
ghost use Rattle.three_address.specs.LiveTables.{bit, round, rounds};
ghost use Rattle.three_address.specs.Liveness.{Live};
ghost use Rattle.three_address.specs.Intervals.{IsInterval};
ghost use Rattle.three_address.specs.Flow.{label_at};
ghost use Rattle.three_address.specs.LiveLabels.{AreAllColumns, live_mark};
ghost use Rattle.three_address.specs.TableIntervals.{first_held, last_held};
ghost use Rattle.three_address.specs.declared.function.LowFun.{LowFun};
ghost use Rattle.three_address.specs.declared.function.Lowered.{Lowered};
ghost use Rattle.three_address.specs.Entry.{low_outcome};

/// A run is steady: an end stays, and what was printed stays printed.
pub fn low_runs_are_steady()
    ensures { (program : Lowered) (args : List Arg) (heap depth : ℕ) → IsSteady (low_outcome program args heap depth) }
{}

/// What rounds from the empty table find is live.
pub fn found_places_are_live()
    ensures { (fun : LowFun) (count at place : ℕ) → bit (rounds fun count) at place ≡ true → Live fun at place }
{}

/// A table that a round leaves as it is has each live place of the function.
pub fn steady_tables_have_all_live_places()
    ensures { (fun : LowFun) (table : List (List Truth)) → round fun table ≡ table → (at place : ℕ) → place < fun.places → Live fun at place
        → bit table at place ≡ true }
{}

/// The first and the last position at which such a table of rounds holds a place are the least range that the place has to keep its word in.
pub fn table_ranges_are_intervals()
    ensures { (fun : LowFun) (count place first last : ℕ) → round fun (rounds fun count) ≡ rounds fun count → 0 < length fun.code
        → place < fun.places → first_held fun (rounds fun count) place ≡ Some first → last_held fun (rounds fun count) place ≡ Some last
        → IsInterval fun place first last }
{}

/// In columns of live places at labels the mark of a place at a label stands where the place is live at the position of the label.
pub fn marks_at_labels_are_live()
    ensures { (fun : LowFun) (columns : List (List Truth)) (label at place : ℕ) → AreAllColumns fun columns → place < fun.places
        → label_at fun.labels label ≡ Some at → (live_mark columns label place ≡ true) ↔ Live fun at place }
{}
