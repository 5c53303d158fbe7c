//! The words of a command line.

ghost use Rattle.std.specs.Prelude.{◌≡◌, [], Some, None, Err, IfOk, IsErrOf};
ghost use Rattle.command_reports.specs.Words as spec;
ghost use Rattle.command_reports.specs.Words.{IsWithinLimits, view};
ghost use Rattle.run_options.specs.Options.{none_yet, rules_of, sorted};
ghost use Rattle.xan_io.specs.Words.{texts};

use run_options::limits::{DEPTH, HEAP, MOST_UNITS, UNITS};
use run_options::{Limits, Options, Request, WordsError, read_request, sort_words};
use source_values::MOST_WORDS;
use std::alloc::Global;
use xan_io::is_value;

/// The most activations that a run may be told to have at once.
pub const MOST_DEPTH: u64 = 65_536;

/// A command, over the source of a name.
#[derive(Drop)]
pub enum Command<'a> {
    /// To build it into the text of another name.
    Build { source: &'a str, target: &'a str },
    /// To list its goals.
    Goals(&'a str),
    /// To run it.
    Eval(Request<'a>),
}

/// The command that the words mean.
///
/// The first word is the command. Of `build` and `goals` the others are values: a word that begins with `-` and is longer than that is none.
/// Of `eval` the first value is the name of a source, and the further ones are arguments; options stand anywhere between them. `NoCommand`
/// comes exactly where the words mean nothing, and `Memory` where memory ran out.
pub fn read_command<'a>(alloc: Global, words: &[&'a str]) -> Result<Command<'a>, WordsError>
    ensures read { IfOk result (λ command. spec.words_mean (texts words.now) ≡ Some (view command)) }
    ensures none { IsErrOf result WordsError.NoCommand → spec.words_mean (texts words.now) ≡ None }
    ensures within { IfOk result IsWithinLimits }
{
    let [name, words @ ..] = words else {
        return Err(WordsError::NoCommand);
    };
    if *name == "build" {
        return read_build(words);
    }
    if *name == "goals" {
        return read_goals(words);
    }
    if *name == "eval" {
        return read_eval(alloc, words);
    }
    Err(WordsError::NoCommand)
}

/// The words behind `build`.
fn read_build<'a>(words: &[&'a str]) -> Result<Command<'a>, WordsError>
    ensures read { IfOk result (λ command. spec.build_of (texts words.now) ≡ Some (view command)) }
    ensures none { IsErrOf result WordsError.NoCommand → spec.build_of (texts words.now) ≡ None }
    ensures within { IfOk result IsWithinLimits }
{
    match words {
        [source, target] => {
            if is_value(source) && is_value(target) {
                Ok(Command::Build { source, target })
            } else {
                Err(WordsError::NoCommand)
            }
        }
        _ => Err(WordsError::NoCommand),
    }
}

/// The words behind `goals`.
fn read_goals<'a>(words: &[&'a str]) -> Result<Command<'a>, WordsError>
    ensures read { IfOk result (λ command. spec.goals_of (texts words.now) ≡ Some (view command)) }
    ensures none { IsErrOf result WordsError.NoCommand → spec.goals_of (texts words.now) ≡ None }
    ensures within { IfOk result IsWithinLimits }
{
    match words {
        [source] => {
            if is_value(source) {
                Ok(Command::Goals(source))
            } else {
                Err(WordsError::NoCommand)
            }
        }
        _ => Err(WordsError::NoCommand),
    }
}

/// The words behind `eval`.
fn read_eval<'a>(alloc: Global, words: &[&'a str]) -> Result<Command<'a>, WordsError>
    ensures read { IfOk result (λ command. spec.asked_of (sorted spec.fuel_options (texts words.now) [] none_yet) ≡ Some (view command)) }
    ensures none { IsErrOf result WordsError.NoCommand → spec.asked_of (sorted spec.fuel_options (texts words.now) [] none_yet) ≡ None }
    ensures within { IfOk result IsWithinLimits }
{
    let options = fuel_options();
    let sorted = sort_words(alloc, &options, words)?;
    let request = read_request(alloc, &options, sorted.given, sorted.values.as_slice())?;
    Ok(Command::Eval(request))
}

/// The options of a run, of which the third says how many units of fuel it may take.
fn fuel_options() -> Options<'static>
    ensures { rules_of result ≡ spec.fuel_options }
{
    Options {
        name: "--fuel",
        usual: Limits {
            heap: HEAP,
            depth: DEPTH,
            units: UNITS,
        },
        most: Limits {
            heap: MOST_WORDS,
            depth: MOST_DEPTH,
            units: MOST_UNITS,
        },
    }
}
