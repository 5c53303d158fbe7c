//! The words of a command line.

ghost use Rattle.std.specs.Prelude.{◌≡◌, Some, None, Err, IfOk, IsErrOf, codes};
ghost use Rattle.dtal_driver.specs.Words as spec;
ghost use Rattle.dtal_driver.specs.Words.{IsWithinLimits, view};
ghost use Rattle.run_options.specs.Options.{AreAllowed};
ghost use Rattle.xan_io.specs.Words.{texts};

use dtal_machine::limits::{MOST_DEPTH, MOST_HEAP};
use run_options::limits::{DEPTH, HEAP, MOST_UNITS, UNITS};
use run_options::{
    Given, Limits, Options, Request, WordsError, is_none_given, read_request, sort_words,
};
use std::alloc::Global;

/// A command, over the text of a name.
#[derive(Drop)]
pub enum Command<'a> {
    /// To say whether the program is accepted.
    Verify(&'a str),
    /// To run the program.
    Run(Request<'a>),
}

/// The options of a run, of which the third says how many steps it may make.
fn step_options() -> Options<'static>
    ensures name { result.name.now ≡ codes "--steps" }
    ensures usual { result.usual ≡ spec.usual }
    ensures most { result.most ≡ spec.most }
{
    Options {
        name: "--steps",
        usual: Limits {
            heap: HEAP,
            depth: DEPTH,
            units: UNITS,
        },
        most: Limits {
            heap: MOST_HEAP,
            depth: MOST_DEPTH,
            units: MOST_UNITS,
        },
    }
}

/// The command that the words mean.
///
/// The first word is the command. Of the others the first value is the name of a text, and the further ones are arguments; options stand
/// anywhere between them. `NoCommand` comes exactly where the words mean nothing, and `Memory` where memory ran out.
pub fn read_command<'a>(alloc: Global, words: &[&'a str]) -> Result<Command<'a>, WordsError>
    ensures read { IfOk result (λ command. spec.words_mean (texts words.now) ≡ Some (view command)) }
    ensures none { IsErrOf result WordsError.NoCommand → spec.words_mean (texts words.now) ≡ None }
    ensures within { IfOk result IsWithinLimits }
{
    let [command, words @ ..] = words else {
        return Err(WordsError::NoCommand);
    };
    let sorted = sort_words(alloc, &step_options(), words)?;
    if *command == "verify" {
        return verify(sorted.given, sorted.values.as_slice());
    }
    if *command == "run" {
        return run(alloc, sorted.given, sorted.values.as_slice());
    }
    Err(WordsError::NoCommand)
}

/// The command to verify a text, which takes no options and no arguments.
fn verify<'a>(given: Given, values: &[&'a str]) -> Result<Command<'a>, WordsError>
    ensures read { IfOk result (λ command. spec.verifies given (texts values.now) ≡ Some (view command)) }
    ensures none { IsErrOf result WordsError.NoCommand → spec.verifies given (texts values.now) ≡ None }
    ensures within { IfOk result IsWithinLimits }
{
    match values {
        [text] => {
            if is_none_given(given) {
                Ok(Command::Verify(text))
            } else {
                Err(WordsError::NoCommand)
            }
        }
        _ => Err(WordsError::NoCommand),
    }
}

/// The command to run a text.
fn run<'a>(alloc: Global, given: Given, values: &[&'a str]) -> Result<Command<'a>, WordsError>
    requires { AreAllowed spec.most given }
    ensures read { IfOk result (λ command. spec.runs given (texts values.now) ≡ Some (view command)) }
    ensures none { IsErrOf result WordsError.NoCommand → spec.runs given (texts values.now) ≡ None }
    ensures within { IfOk result IsWithinLimits }
{
    let request = read_request(alloc, &step_options(), given, values)?;
    Ok(Command::Run(request))
}
