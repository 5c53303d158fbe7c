//! What the values among words ask a run for.

ghost use Rattle.std.specs.Prelude.{◌≡◌, Some, None, Err, IfOk, IsErrOf};
ghost use Rattle.run_options.specs.Options.{AreAllowed, IsWithin};
ghost use Rattle.run_options.specs.Requests as spec;
ghost use Rattle.run_options.specs.Requests.{args_of, requested, view};
ghost use Rattle.xan_io.specs.Words.{texts};

use crate::options::{Given, Limits, Options, limits_of};
use crate::words::WordsError;
use std::alloc::Global;
use xan_io::{Arg, ArgError, read_arg};

/// A run of what a name holds.
#[derive(Drop)]
pub struct Request<'a> {
    /// The name.
    pub name: &'a str,
    /// What the run may have.
    pub limits: Limits,
    /// Its arguments.
    pub args: Vec<Arg>,
}

/// The run that values and options ask for: the first value is the name, and the others are arguments.
pub fn read_request<'a>(
    alloc: Global,
    options: &Options<'_>,
    given: Given,
    values: &[&'a str],
) -> Result<Request<'a>, WordsError>
    requires usual { IsWithin options.now.most options.now.usual }
    requires given { AreAllowed options.now.most given }
    ensures read { IfOk result (λ request. requested options.now.usual given (texts values.now) ≡ Some (view request)) }
    ensures none { IsErrOf result WordsError.NoCommand → requested options.now.usual given (texts values.now) ≡ None }
    ensures within { IfOk result (λ request. IsWithin options.now.most request.limits) }
{
    let [name, words @ ..] = values else {
        return Err(WordsError::NoCommand);
    };
    let args = read_args(alloc, words)?;
    let limits = limits_of(options, given);
    Ok(Request { name, limits, args })
}

/// The arguments that the words spell.
fn read_args(alloc: Global, words: &[&str]) -> Result<Vec<Arg>, WordsError>
    ensures read { IfOk result (λ args. args_of (texts words.now) ≡ Some args.items) }
    ensures none { IsErrOf result WordsError.NoCommand → args_of (texts words.now) ≡ None }
{
    let mut args = Vec::new(alloc);
    for word in words {
        match read_arg(alloc, word) {
            Ok(arg) => args.push(arg)?,
            Err(ArgError::Text) => return Err(WordsError::NoCommand),
            Err(ArgError::Memory) => return Err(WordsError::Memory),
        }
    }
    Ok(args)
}
