//! The reading of whole texts.

ghost use Rattle.std.specs.Prelude.{◌≡◌, IfOk, IfErr, length};
ghost use Rattle.xan_read.specs.Code.{Reads};
ghost use Rattle.xan_read.specs.Reader.{whole_text};
ghost use Rattle.dtal_code.specs.Grammar.{Spells};
ghost use Rattle.dtal_text.specs.ProgramReading.{function, program};
ghost use Rattle.dtal_text.specs.WholeText.{Refuses, told_of};

use crate::body::read_blocks;
use crate::names::read_name;
use crate::signatures::{TypeLine, read_signature};
use crate::text_error::TextError;
use dtal_code::limits::{LAST_NUMBER, MOST_TYPES};
use dtal_code::{DtalProgram, Function};
use std::alloc::Global;
use xan_io::Name;
use xan_read::{Production, ReadError, literal, nothing_left, repeated};
use xan_seq::Seq;

// Functions behind their first byte, as items of a list.
struct FunctionItem;

impl Production for FunctionItem {
    type Value = Function;

    ghost reader = { λ _. function };

    #[tactic(auto, unfolding(crate::specs::ProgramReading::function))]
    fn read<'a>(&self, alloc: Global, bytes: &'a [u8]) -> Result<(Function, &'a [u8]), ReadError> {
        let (name, rest) = read_name(literal(bytes, b"un ")?)?;
        let (sig, rest) = read_signature(alloc, literal(rest, b" ")?)?;
        let (blocks, rest) = read_blocks(alloc, literal(rest, b"\n")?)?;
        let name = Name::from_bytes(alloc, name).map_err(|_| ReadError::Memory)?;
        Ok((Function { name, sig, blocks }, rest))
    }
}

// A program, and the bytes behind it.
#[tactic(auto, unfolding(crate::specs::ProgramReading::program, xan_read::specs::Combinators::literal))]
fn read_front(alloc: Global, bytes: &[u8]) -> Result<(DtalProgram, &[u8]), ReadError>
    ensures { Reads (λ x. (x.0, x.1.now)) result (program bytes.now) }
{
    let rest = literal(bytes, b"dtal 1\n")?;
    let (types, rest) = repeated(alloc, rest, b't', u64::from(MOST_TYPES), &TypeLine)?;
    let (funs, rest) = repeated(alloc, rest, b'f', u64::from(LAST_NUMBER), &FunctionItem)?;
    let program = DtalProgram {
        types: Seq::from_vec(types),
        funs: Seq::from_vec(funs),
    };
    Ok((program, rest))
}

// The program, where nothing stands behind it.
fn read_all(alloc: Global, bytes: &[u8]) -> Result<DtalProgram, ReadError>
    ensures { Reads (λ x. x) result (whole_text program bytes.now) }
{
    let (program, rest) = read_front(alloc, bytes)?;
    nothing_left(rest)?;
    Ok(program)
}

// The error that bytes are answered with which were not read.
fn told(e: ReadError, bytes: &[u8]) -> TextError
    ensures { result ≡ told_of e (length bytes.now) }
{
    match e {
        ReadError::Fault(fault) => TextError::Fault {
            at: fault.offset(bytes.len()) as u64,
        },
        ReadError::Memory => TextError::Memory,
    }
}

/// The program that the bytes spell, in one walk over them.
///
/// `Fault` comes exactly where they spell none, with the length of the longest front that begins the text of one; `Memory` where memory
/// ran out.
pub fn read(alloc: Global, bytes: &[u8]) -> Result<DtalProgram, TextError>
    ensures read { IfOk result (λ program. Spells bytes.now program) }
    ensures refused { IfErr result (λ error. Refuses error bytes.now) }
{
    match read_all(alloc, bytes) {
        Ok(program) => Ok(program),
        Err(e) => Err(told(e, bytes)),
    }
}
