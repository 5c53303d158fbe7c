//! What it means that the elimination proves a goal.
ghost use Rattle.std.specs.Prelude.{◌≡◌, List};
ghost use Rattle.std.specs.List.{All};
ghost use Rattle.xan_lin.specs.Linear.{Linear, IsForm};
ghost use Rattle.index_sorts.specs.Entails.{Entails};
ghost use Rattle.proof_lines.specs.Lines.{LinesProve};
ghost use Rattle.linear_solver.specs.declared.answer.Answer.TheVariants.{Proved};
ghost use Rattle.linear_solver.specs.Elimination.{elimination, proof_steps};
ghost use Rattle.linear_solver.specs.Meaning.{lines_meant};

/// Where the elimination proves a goal, the lines that its steps mean prove it.
pub fn steps_mean_a_proof()
    ensures { (hyps : List Linear) (goal : Linear) → All IsForm hyps → IsForm goal → elimination hyps goal ≡ Proved
        → LinesProve hyps goal (lines_meant hyps (proof_steps hyps goal)) }
{}

/// A goal that the elimination proves is entailed by the hypotheses: every assignment of integers under which they hold makes it hold.
pub fn proved_goals_are_entailed()
    ensures { (hyps : List Linear) (goal : Linear) → All IsForm hyps → IsForm goal → elimination hyps goal ≡ Proved → Entails hyps goal }
{}
