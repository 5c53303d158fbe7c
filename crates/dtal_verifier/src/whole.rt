//! The whole call.

ghost use Rattle.std.specs.Prelude.{◌≡◌, ◌≤◌, length, IfOk, IfErr, List};
ghost use Rattle.dtal_code.specs.Acceptance.{Accepted};
ghost use Rattle.dtal_code.specs.Grammar.{InGrammar};
ghost use Rattle.dtal_code.specs.Refusing.{verified};
ghost use Rattle.dtal_verifier.specs.Code.{Decides, Passes};
ghost use Rattle.dtal_verifier.specs.Views.{AreDeclared};
ghost use Rattle.dtal_verifier.specs.Walks as spec;
ghost use Rattle.dtal_verifier.specs.declared.error.VerifyError.TheVariants as verify_error;

use crate::error::VerifyError;
use crate::functions::check_functions;
use crate::signatures::{check_program, check_signatures};
use crate::types::check_types;
use dtal_code::DtalProgram;
use std::alloc::Global;

/// A program that is accepted.
#[derive(Drop)]
pub struct Verified {
    program: DtalProgram,
}

impl Verified {
    /// The program.
    pub fn program(&self) -> &DtalProgram
        ensures { result.now ≡ self.now.program }
    {
        &self.program
    }
}

// What is asked of types, signatures and the program.
#[tactic(auto, unfolding(crate::specs::Walks::declarations_passed))]
fn check_declarations(alloc: Global, program: &DtalProgram) -> Result<(), VerifyError>
    requires { InGrammar program.now }
    ensures passed { Passes (λ _. tt) result (spec.declarations_passed program.now) }
    ensures declared { IfOk result (λ _. AreDeclared program.now) }
{
    let types = program.types.as_slice();
    check_types(types)?;
    check_signatures(alloc, types, program.funs.as_slice())?;
    check_program(program)
}

// What is asked of all places.
#[tactic(auto, unfolding(crate::specs::Walks::program_passed))]
fn check_places(alloc: Global, program: &DtalProgram) -> Result<(), VerifyError>
    requires { InGrammar program.now }
    ensures { Passes (λ _. tt) result (spec.program_passed program.now) }
{
    check_declarations(alloc, program)?;
    check_functions(alloc, program)
}

/// Whether a program that some text spells is accepted: the program, or the first place at which a rule fails, with the first rule that
/// fails there.
pub fn verify(alloc: Global, program: DtalProgram) -> Result<Verified, VerifyError>
    requires { InGrammar program }
    // It is the program that is given.
    ensures same { IfOk result (λ found. found.program ≡ program) }
    // It is accepted.
    ensures accepted { IfOk result (λ _. Accepted program) }
    // An accepted program is verified, unless memory runs out.
    ensures complete { Accepted program → IfErr result (λ error. error ≡ verify_error.Memory) }
    // Where it is refused, and by which rule.
    ensures exact { Decides result (verified program) }
{
    match check_places(alloc, &program) {
        Ok(()) => Ok(Verified { program }),
        Err(error) => Err(error),
    }
}
