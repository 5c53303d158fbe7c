//! From a name to the accepted program that its text spells: the passes in their order.

ghost use Rattle.std.specs.Prelude.{◌≡◌, ◌≤◌, ℕ, List, length, IfOk, IfErr};
ghost use Rattle.xan_io.specs.Contents.{replaced};
ghost use Rattle.dtal_driver.specs.Causes.{IsVerified, IsDenied};
ghost use Rattle.dtal_driver.specs.VerifiedTexts.{text_most};

use crate::answer::Answer;
use dtal_text::read;
use dtal_verifier::{Verified, verify};
use std::alloc::Global;
use xan_io::{FileRead, Files, READ_MOST};

/// The accepted program of the text that the name holds, or the answer where there is none.
pub fn verified_program<F: Files>(
    alloc: Global,
    files: &mut F,
    text: &str,
) -> Result<Verified, Answer>
    ensures verified { IfOk result (λ verified. IsVerified (F.content files.old text.now) verified.program) }
    ensures denied { IfErr result (IsDenied (F.content files.old text.now) (F.read_faults files.old text.now) (F.read_faults files.new text.now)) }
    ensures unchanged { (name : List ℕ) → F.content files.new name ≡ F.content files.old name }
{
    let bytes = read_text(alloc, files, text)?;
    let program = read(alloc, bytes.as_slice())?;
    Ok(verify(alloc, program)?)
}

/// The bytes of the text.
fn read_text<F: Files>(alloc: Global, files: &mut F, text: &str) -> Result<Vec<u8>, Answer>
    ensures whole { IfOk result (λ bytes. F.content files.old text.now ≡ replaced (F.content files.old text.now) bytes.items) }
    ensures short { IfOk result (λ bytes. length bytes.items ≤ text_most) }
    ensures denied { IfErr result (IsDenied (F.content files.old text.now) (F.read_faults files.old text.now) (F.read_faults files.new text.now)) }
    ensures unchanged { (name : List ℕ) → F.content files.new name ≡ F.content files.old name }
{
    match files.read(alloc, text, READ_MOST)? {
        FileRead::Whole(bytes) => Ok(bytes),
        FileRead::TooLong => Err(Answer::TooLong),
    }
}
