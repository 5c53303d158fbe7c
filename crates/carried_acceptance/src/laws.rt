//! What is granted of carried code.

ghost use Rattle.std.specs.Prelude.{◌≡◌, true, nat_lt};
ghost use Rattle.three_address.specs.declared.assignment.Assignment.{Assignment};
ghost use Rattle.three_address.specs.declared.typed.Typed.{Typed};
ghost use Rattle.typed_core.specs.Proving.{ProvedParts};
ghost use Rattle.dtal_code.specs.Acceptance.{Accepted};
ghost use Rattle.dtal_code.specs.Grammar.{InGrammar};
ghost use Rattle.dtal_emit.specs.Emitted.{emitted};
ghost use Rattle.emission_laws.specs.FollowedRuns.{AreReady};
ghost use Rattle.carried_acceptance.specs.SlottedCarried.{IsCarriedWhole, places_at};

/// The program that becomes of carried code, with each place in a slot of its own, is accepted, and is of the grammar.
pub fn carried_programs_are_accepted()
    ensures accepted { (program : ProvedParts) (typed : Typed) (homes : Assignment) → IsCarriedWhole program typed homes → Accepted (emitted typed homes) }
    ensures written { (program : ProvedParts) (typed : Typed) (homes : Assignment) → IsCarriedWhole program typed homes → InGrammar (emitted typed homes) }
{}

/// Emission takes carried code whole, and all places of a function are kept apart throughout it, so that the program's run follows that of the
/// code.
pub fn carried_programs_are_ready()
    ensures { (program : ProvedParts) (typed : Typed) (homes : Assignment) → IsCarriedWhole program typed homes
        → AreReady typed homes (λ number at place. nat_lt place (places_at typed number) ≡ true) }
{}
