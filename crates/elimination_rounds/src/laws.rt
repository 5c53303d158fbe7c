//! What it means that the elimination ends by itself.

ghost use Rattle.elimination_rounds.specs.Unbounded.{IsAnswer};
ghost use Rattle.linear_solver.specs.Elimination.{refutation};
ghost use Rattle.linear_solver.specs.declared.answer.Answer.{Answer};
ghost use Rattle.solver_rows.specs.declared.step.Step.{Step};
ghost use Rattle.std.specs.List.{All};
ghost use Rattle.std.specs.Prelude.{◌≡◌, List, Result};
ghost use Rattle.xan_lin.specs.Linear.{Linear, IsForm};

/// What comes of hypotheses and a goal in at most 64 rounds is what comes of them in as many as it takes, and nothing else comes of them.
pub fn bound_changes_nothing()
    ensures is { (hyps : List Linear) (goal : Linear) → All IsForm hyps → IsForm goal → IsAnswer hyps goal (refutation hyps goal) }
    ensures only { (hyps : List Linear) (goal : Linear) (answer : Result (List Step) Answer) → All IsForm hyps → IsForm goal → IsAnswer hyps goal answer
        → answer ≡ refutation hyps goal }
{}
