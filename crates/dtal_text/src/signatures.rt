//! The reading of type lines and signatures.

ghost use Rattle.std.specs.Prelude.{◌≡◌, true, false};
ghost use Rattle.xan_read.specs.Code.{Reads};
ghost use Rattle.dtal_text.specs.TypeReading.{parts, type_line, signature};

use crate::chain::read_some;
use crate::items::TyItem;
use crate::tables::read_kind;
use crate::types::{read_quantifier, read_ty, read_types};
use dtal_code::limits::MOST_LISTED;
use state_types::{Packed, Signature, Ty};
use std::alloc::Global;
use xan_read::{Production, ReadError, literal};
use xan_seq::Seq;

/// The most parts of a tuple.
const MOST_PARTS: u64 = MOST_LISTED as u64;

// The parts of a tuple type, and the end of its line.
#[tactic(auto, unfolding(crate::specs::TypeReading::parts))]
fn read_tuple(alloc: Global, bytes: &[u8]) -> Result<(Vec<Ty>, &[u8]), ReadError>
    ensures { Reads (λ x. (x.0.items, x.1.now)) result (parts true bytes.now) }
{
    read_some(alloc, b' ', b'\n', MOST_PARTS, TyItem, bytes)
}

// The one part of a cell type, and the end of its line.
#[tactic(auto, unfolding(crate::specs::TypeReading::parts))]
fn read_cell(alloc: Global, bytes: &[u8]) -> Result<(Vec<Ty>, &[u8]), ReadError>
    ensures { Reads (λ x. (x.0.items, x.1.now)) result (parts false bytes.now) }
{
    let (ty, rest) = read_ty(bytes)?;
    let rest = literal(rest, b"\n")?;
    let mut made = Vec::new(alloc);
    made.push(ty)?;
    Ok((made, rest))
}

// The parts of a type, and the end of its line.
fn read_parts(alloc: Global, bytes: &[u8], tuple: bool) -> Result<(Vec<Ty>, &[u8]), ReadError>
    ensures { Reads (λ x. (x.0.items, x.1.now)) result (parts tuple bytes.now) }
{
    if tuple {
        read_tuple(alloc, bytes)
    } else {
        read_cell(alloc, bytes)
    }
}

/// Lines of types behind their first byte, as items of a list.
pub(crate) struct TypeLine;

impl Production for TypeLine {
    type Value = Packed;

    ghost reader = { λ _. type_line };

    #[tactic(auto, unfolding(crate::specs::TypeReading::type_line))]
    fn read<'a>(&self, alloc: Global, bytes: &'a [u8]) -> Result<(Packed, &'a [u8]), ReadError> {
        let ((vars, rows), rest) = read_quantifier(alloc, literal(bytes, b"ype ")?)?;
        let (tuple, rest) = read_kind(rest)?;
        let (parts, rest) = read_parts(alloc, rest, tuple)?;
        let packed = Packed {
            vars,
            rows,
            parts: Seq::from_vec(parts),
            tuple,
        };
        Ok((packed, rest))
    }
}

/// A signature, and the bytes behind it.
#[tactic(auto, unfolding(crate::specs::TypeReading::signature))]
pub(crate) fn read_signature(alloc: Global, bytes: &[u8]) -> Result<(Signature, &[u8]), ReadError>
    ensures { Reads (λ x. (x.0, x.1.now)) result (signature bytes.now) }
{
    let ((vars, rows), rest) = read_quantifier(alloc, bytes)?;
    let (params, rest) = read_types(alloc, literal(rest, b" (")?)?;
    let ((result_vars, result_rows), rest) = read_quantifier(alloc, literal(rest, b" ")?)?;
    let (result, rest) = read_ty(literal(rest, b" ")?)?;
    let sig = Signature {
        vars,
        rows,
        params,
        result_vars,
        result_rows,
        result,
    };
    Ok((sig, rest))
}
