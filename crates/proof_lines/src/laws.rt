//! What it means that lines prove a goal.
ghost use Rattle.std.specs.Prelude.{◌≡◌, ◌↔◌, ℕ, List, Ok};
ghost use Rattle.xan_lin.specs.Linear.{Linear};
ghost use Rattle.index_sorts.specs.Entails.{Entails};
ghost use Rattle.proof_lines.specs.declared.line.Line.{Line};
ghost use Rattle.proof_lines.specs.Lines.{LinesProve};
ghost use Rattle.proof_lines.specs.Check.{checked};
ghost use Rattle.proof_lines.specs.Spelling.{IsLinesText};

/// What lines prove from hypotheses is entailed by them: every assignment of integers under which the hypotheses hold makes the goal hold.
pub fn proved_goals_are_entailed()
    ensures { (hyps : List Linear) (goal : Linear) (lines : List Line) → LinesProve hyps goal lines → Entails hyps goal }
{}

/// The check of lines, as a function, answers Ok exactly where the lines prove the goal.
pub fn checked_is_proved()
    ensures { (hyps : List Linear) (goal : Linear) (lines : List Line) → (checked hyps goal lines ≡ Ok tt) ↔ LinesProve hyps goal lines }
{}

/// A text spells at most one list of lines.
pub fn a_text_spells_one_list()
    ensures { (bytes : List ℕ) (some other : List Line) → IsLinesText some bytes → IsLinesText other bytes → some ≡ other }
{}
