//! The signature with which a program is run.

ghost use Rattle.dtal_code.specs.Acceptance.{Accepted};
ghost use Rattle.dtal_code.specs.ObjectWords.{IsObject};
ghost use Rattle.dtal_machine.specs.Loading.{IsProgramOf};

use dtal_code::{DtalProgram, Object};
use state_types::Signature;

/// The signature of the function `main` of an accepted program whose object this is.
pub fn main_signature<'a>(program: &'a DtalProgram, object: &Object) -> &'a Signature
    requires accepted { Accepted program.now }
    requires object { IsObject program.now object.now }
    ensures { IsProgramOf object.now result.now program.now }
{
    &program.funs.as_slice()[object.main as usize].sig
}
