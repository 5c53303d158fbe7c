//! A law about sources.

ghost use Rattle.std.specs.Prelude.{◌≡◌, ℕ, List, Result};
ghost use Rattle.command_reports.specs.declared.answer.Counts.{Counts};
ghost use Rattle.command_reports.specs.declared.refusal.SourceError.{SourceError};
ghost use Rattle.xanadu_driver.specs.Fate.{fate};
ghost use Rattle.xanadu_driver.specs.Source.{HasFate};

/// Every source has a fate, and no other: a program of so many functions, goals and instructions, or the first thing that it is refused for.
pub fn sources_have_one_fate()
    ensures some { (bytes : List ℕ) → HasFate bytes (fate bytes) }
    ensures one { (bytes : List ℕ) (a b : Result Counts SourceError) → HasFate bytes a → HasFate bytes b → a ≡ b }
{}
