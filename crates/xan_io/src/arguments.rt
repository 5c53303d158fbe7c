//! The argument that a word of a command line spells.

ghost use Rattle.std.specs.Prelude.{◌≡◌, ℕ, List, Some, None, Err, IfOk, length};
ghost use Rattle.xan_io.specs.Arguments.{heads, word_number, cells, behind_head, front, arg_of, IsArg};
ghost use Rattle.xan_io.specs.declared.arg.Arg.{Arg};
ghost use Rattle.xan_io.specs.declared.arguments.ArgError.TheVariants as errors;
ghost use Rattle.xan_read.specs.Code.{Gives, Reads};
ghost use Rattle.xan_read.specs.Reader.{whole_text};
ghost use Rattle.xan_read.specs.Words.{word};

use crate::arg::Arg;
use std::alloc::Global;
use xan_read::{Fault, Production, ReadError, integer, nothing_left, separated, word};
use xan_seq::Seq;

/// Why a word gives no argument.
#[derive(Clone, Copy)]
pub enum ArgError {
    /// The word spells no argument.
    Text,
    /// Memory ran out.
    Memory,
}

/// What stands in front of the numbers of an argument, or all of one without numbers.
#[derive(Clone, Copy)]
pub enum Head {
    Int,
    True,
    False,
    Array,
}

/// The argument that the word spells: `int=N`, `bool=true`, `bool=false`, or `arr=` and numbers with a comma between two.
///
/// A number is decimal and fits 64 bits; it has a `-` where it is negative, and no zero in front. `arr=` alone is the empty array.
/// `Text` comes exactly where the word spells no argument, and `Memory` where memory ran out.
#[tactic(auto, unfolding(crate::specs::Arguments::arg_of))]
pub fn read_arg(alloc: Global, word: &str) -> Result<Arg, ArgError>
    ensures read { IfOk result (λ arg. arg_of word.now ≡ Some arg) }
    ensures text { result ≡ Err errors.Text → arg_of word.now ≡ None }
{
    match read_whole(alloc, word.as_bytes()) {
        Ok(arg) => Ok(arg),
        Err(ReadError::Fault(_)) => Err(ArgError::Text),
        Err(ReadError::Memory) => Err(ArgError::Memory),
    }
}

/// What is read of a word is the one argument that it spells.
pub fn words_spell_one_argument()
    ensures found { (text : List ℕ) (arg : Arg) → arg_of text ≡ Some arg → IsArg arg text }
    ensures only { (text : List ℕ) (arg : Arg) → IsArg arg text → arg_of text ≡ Some arg }
{}

fn read_whole(alloc: Global, bytes: &[u8]) -> Result<Arg, ReadError>
    ensures { Reads (λ arg. arg) result (whole_text (front (length bytes.now)) bytes.now) }
{
    let (arg, rest) = read_front(alloc, bytes, bytes.len() as u64)?;
    nothing_left(rest)?;
    Ok(arg)
}

#[tactic(auto, unfolding(crate::specs::Arguments::front))]
fn read_front(alloc: Global, bytes: &[u8], room: u64) -> Result<(Arg, &[u8]), ReadError>
    ensures { Reads (λ x. (x.0, x.1.now)) result (front room bytes.now) }
{
    let (head, rest) = read_head(bytes)?;
    read_behind(alloc, rest, room, head)
}

fn read_head(bytes: &[u8]) -> Result<(Head, &[u8]), Fault>
    ensures { Gives (λ x. (x.0, x.1.now)) result (word heads bytes.now) }
{
    word(
        bytes,
        &[
            (b"int=".as_slice(), Head::Int),
            (b"bool=true".as_slice(), Head::True),
            (b"bool=false".as_slice(), Head::False),
            (b"arr=".as_slice(), Head::Array),
        ],
    )
}

#[tactic(auto, unfolding(crate::specs::Arguments::behind_head))]
fn read_behind(
    alloc: Global,
    bytes: &[u8],
    room: u64,
    head: Head,
) -> Result<(Arg, &[u8]), ReadError>
    ensures { Reads (λ x. (x.0, x.1.now)) result (behind_head room head bytes.now) }
{
    match head {
        Head::Int => {
            let (number, rest) = WordNumber.read(alloc, bytes)?;
            Ok((Arg::Int(number), rest))
        }
        Head::True => Ok((Arg::Bool(true), bytes)),
        Head::False => Ok((Arg::Bool(false), bytes)),
        Head::Array => {
            let (numbers, rest) = read_cells(alloc, bytes, room)?;
            Ok((Arg::Array(Seq::from_vec(numbers)), rest))
        }
    }
}

#[tactic(auto, unfolding(crate::specs::Arguments::cells))]
fn read_cells(alloc: Global, bytes: &[u8], room: u64) -> Result<(Vec<i64>, &[u8]), ReadError>
    ensures { Reads (λ x. (x.0.items, x.1.now)) result (cells room bytes.now) }
{
    match bytes {
        [] => Ok((Vec::new(alloc), bytes)),
        [_, ..] => separated(alloc, bytes, b',', room, &WordNumber),
    }
}

/// A number that fits 64 bits.
struct WordNumber;

impl Production for WordNumber {
    type Value = i64;

    ghost use Rattle.xan_io.specs.Arguments.{word_number};

    ghost reader = { λ _. word_number };

    #[tactic(auto, unfolding(crate::specs::Arguments::word_number))]
    fn read<'a>(&self, alloc: Global, bytes: &'a [u8]) -> Result<(i64, &'a [u8]), ReadError> {
        Ok(integer(bytes, 9223372036854775808, 9223372036854775807)?)
    }
}
