ghost use Rattle.std.specs.Prelude.{ℕ};
ghost use Rattle.xan_io.specs.Outcome.{Outcome};
ghost use Rattle.xan_io.specs.Agreement.{IsSteady, Follows, Agrees};

/// A simulation forwards is agreement in both directions: it suffices that each outcome of the source is one of the machine,
/// and that the machine has made as many steps as the source has spent units where the source still runs.
pub fn simulation_agrees()
    ensures { (source machine : ℕ → Outcome) → IsSteady machine
        → ((n : ℕ) → Follows machine n (source n)) → Agrees source machine }
{}
