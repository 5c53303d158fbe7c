ghost use Rattle.std.specs.Prelude.{◌≡◌, ℕ, List, Option, Ok};
ghost use Rattle.xan_io.specs.Agreement.{IsSteady};
ghost use Rattle.state_types.specs.declared.state.StateType.{StateType};
ghost use Rattle.dtal_code.specs.declared.object.RunOp.{RunOp};
ghost use Rattle.dtal_code.specs.declared.program.DtalProgram.{DtalProgram};
ghost use Rattle.dtal_code.specs.Acceptance.{Accepted};
ghost use Rattle.dtal_code.specs.Grammar.{InGrammar};
ghost use Rattle.dtal_code.specs.Machine.{State};
ghost use Rattle.dtal_code.specs.ObjectCode.{Code};
ghost use Rattle.dtal_code.specs.ObjectWords.{IsPair};
ghost use Rattle.dtal_code.specs.Refusing.{verified};
ghost use Rattle.dtal_code.specs.Runs.{outcome_from};

/// A program of the grammar in which the walk over its places finds no rule that fails is accepted.
pub fn what_is_not_refused_is_accepted()
    ensures { (program : DtalProgram) (states : List (List StateType)) → InGrammar program → verified program ≡ Ok states → Accepted program }
{}

/// Of an accepted program that walk gives the state types before its instructions, so that there is one list of them alone.
pub fn accepted_programs_are_verified()
    ensures { (program : DtalProgram) (accepted : Accepted program) → verified program ≡ Ok accepted.states }
{}

/// A run of a program's object code is steady: an end stays, and what was printed stays printed.
pub fn object_runs_are_steady()
    ensures { (code : Code) (entry : Option State) → IsSteady (outcome_from code entry) }
{}

/// Two words code at most one instruction.
pub fn pairs_code_one_instruction()
    ensures { (first second : ℕ) (o p : RunOp) → IsPair first second o → IsPair first second p → o ≡ p }
{}
