//! Options and values, among words.

ghost use Rattle.std.specs.Prelude.{◌≡◌, [], Some, None, Err, IfOk, IsErrOf};
ghost use Rattle.run_options.specs.Options as spec;
ghost use Rattle.run_options.specs.Options.{AreAllowed, rules_of};
ghost use Rattle.run_options.specs.Requests.{sorted_view};
ghost use Rattle.xan_io.specs.Words.{texts};

use crate::options::{Given, Met, Next, Options, Reading, meet};
use std::alloc::{AllocFailed, Global};

/// The values among words, and the options.
#[derive(Drop)]
pub struct Sorted<'a> {
    /// The values, in order.
    pub values: Vec<&'a str>,
    /// The options.
    pub given: Given,
}

/// Why words give no command.
#[derive(Clone, Copy)]
pub enum WordsError {
    /// They are none, or one of them may not stand where it does.
    NoCommand,
    /// Memory ran out.
    Memory,
}

/// The values and the options among words.
pub fn sort_words<'a>(
    alloc: Global,
    options: &Options<'_>,
    words: &[&'a str],
) -> Result<Sorted<'a>, WordsError>
    ensures sorted { IfOk result (λ sorted. spec.sorted (rules_of options.now) (texts words.now) [] spec.none_yet ≡ Some (sorted_view sorted)) }
    ensures none { IsErrOf result WordsError.NoCommand → spec.sorted (rules_of options.now) (texts words.now) [] spec.none_yet ≡ None }
    ensures allowed { IfOk result (λ sorted. AreAllowed options.now.most sorted.given) }
{
    let mut values = Vec::new(alloc);
    let mut reading = Reading {
        given: Given {
            heap: None,
            depth: None,
            units: None,
        },
        next: Next::Any,
    };
    let mut left = words;
    'words: while let [word, others @ ..] = left {
        match meet(options, reading, word) {
            Some(Met::Value) => values.push(*word)?,
            Some(Met::Part(more)) => reading = more,
            None => return Err(WordsError::NoCommand),
        }
        left = others;
    }
    finish(options, values, reading)
}

/// The values and the options, unless an option still wants its number.
fn finish<'a>(
    options: &Options<'_>,
    values: Vec<&'a str>,
    reading: Reading,
) -> Result<Sorted<'a>, WordsError>
    requires { AreAllowed options.now.most reading.given }
    ensures sorted { IfOk result (λ sorted. spec.finished reading.next (texts values.entry.items) reading.given ≡ Some (sorted_view sorted)) }
    ensures none { IsErrOf result WordsError.NoCommand → spec.finished reading.next (texts values.entry.items) reading.given ≡ None }
    ensures allowed { IfOk result (λ sorted. AreAllowed options.now.most sorted.given) }
{
    let given = reading.given;
    match reading.next {
        Next::Any | Next::Value => Ok(Sorted { values, given }),
        Next::NumberOf(_) => Err(WordsError::NoCommand),
    }
}

impl<T: Drop> From<AllocFailed<T>> for WordsError {
    ghost use Rattle.std.specs.Prelude.{◌≡◌};
    ghost use Rattle.run_options.specs.declared.words.WordsError.TheVariants as error;

    ghost from_gives = { λ _ e. e ≡ error.Memory };

    fn from(_error: AllocFailed<T>) -> WordsError {
        WordsError::Memory
    }
}
