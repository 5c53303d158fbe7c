//! The reading of types and quantifiers.

ghost use Rattle.std.specs.Prelude.{◌≡◌, codes};
ghost use Rattle.xan_read.specs.Code.{Gives, Reads};
ghost use Rattle.dtal_text.specs.Chains.{two};
ghost use Rattle.dtal_text.specs.Listings.{unbounded};
ghost use Rattle.dtal_text.specs.TypeReading.{any_number, type_number, whole_form, closed, ty_behind, one_type, types, quantifier};

use crate::bounded::Bounded;
use crate::chain::read_chain;
use crate::items::{FormItem, TyItem};
use crate::tables::read_ty_word;
use crate::unbounded::Unbounded;
use crate::word::TyWord;
use dtal_code::limits::{LAST_NUMBER, LAST_TYPE, MOST_LISTED};
use proof_lines::read_form;
use state_types::{Ty, TypeId};
use std::alloc::Global;
use xan_lin::Form;
use xan_read::{Fault, ReadError, literal, number};
use xan_seq::Seq;

/// A number of a variable, a label or a function, and the bytes behind it.
pub(crate) fn read_any_number(bytes: &[u8]) -> Result<(u32, &[u8]), Fault>
    ensures { Gives (λ x. (x.0, x.1.now)) result (any_number bytes.now) }
{
    let (value, rest) = number(bytes, 0, u64::from(LAST_NUMBER))?;
    Ok((value as u32, rest))
}

/// A number of a type, and the bytes behind it.
pub(crate) fn read_type_number(bytes: &[u8]) -> Result<(TypeId, &[u8]), Fault>
    ensures { Gives (λ x. (x.0, x.1.now)) result (type_number bytes.now) }
{
    let (value, rest) = number(bytes, 0, u64::from(LAST_TYPE))?;
    Ok((value as u32, rest))
}

fn read_closed_form(bytes: &[u8]) -> Result<(Form, &[u8]), Fault>
    ensures { Gives (λ x. (x.0, x.1.now)) result (closed whole_form bytes.now) }
{
    let (form, rest) = read_form(bytes)?;
    let rest = literal(rest, b")")?;
    Ok((form, rest))
}

fn read_closed_number(bytes: &[u8]) -> Result<(TypeId, &[u8]), Fault>
    ensures { Gives (λ x. (x.0, x.1.now)) result (closed type_number bytes.now) }
{
    let (value, rest) = read_type_number(bytes)?;
    let rest = literal(rest, b")")?;
    Ok((value, rest))
}

// The type of an array's cells, and its length.
fn read_cells(bytes: &[u8]) -> Result<((TypeId, Form), &[u8]), Fault>
    ensures { Gives (λ x. (x.0, x.1.now)) result (closed (two type_number (codes ",") whole_form) bytes.now) }
{
    let (cells, rest) = read_type_number(bytes)?;
    let (length, rest) = read_closed_form(literal(rest, b",")?)?;
    Ok(((cells, length), rest))
}

// What stands behind the word.
#[tactic(auto, unfolding(crate::specs::TypeReading::ty_behind))]
fn read_ty_behind(bytes: &[u8], word: TyWord) -> Result<(Ty, &[u8]), Fault>
    ensures { Gives (λ x. (x.0, x.1.now)) result (ty_behind word bytes.now) }
{
    match word {
        TyWord::Int => {
            let (index, rest) = read_closed_form(bytes)?;
            Ok((Ty::Int(index), rest))
        }
        TyWord::Bool => Ok((Ty::Bool, bytes)),
        TyWord::Array => {
            let ((cells, length), rest) = read_cells(bytes)?;
            Ok((Ty::Array(cells, length), rest))
        }
        TyWord::Named => {
            let (value, rest) = read_closed_number(bytes)?;
            Ok((Ty::Named(value), rest))
        }
    }
}

/// A type, and the bytes behind it.
#[tactic(auto, unfolding(crate::specs::TypeReading::one_type))]
pub(crate) fn read_ty(bytes: &[u8]) -> Result<(Ty, &[u8]), Fault>
    ensures { Gives (λ x. (x.0, x.1.now)) result (one_type bytes.now) }
{
    let (word, rest) = read_ty_word(bytes)?;
    read_ty_behind(rest, word)
}

/// Types up to a bracket, and the bytes behind that.
#[tactic(auto, unfolding(crate::specs::TypeReading::types))]
pub(crate) fn read_types(alloc: Global, bytes: &[u8]) -> Result<(Seq<Ty>, &[u8]), ReadError>
    ensures { Reads (λ x. (x.0, x.1.now)) result (types bytes.now) }
{
    let list = Bounded {
        between: b' ',
        mark: b')',
        item: TyItem,
    };
    let (types, rest) = read_chain(alloc, &list, (true, u64::from(MOST_LISTED)), bytes)?;
    Ok((Seq::from_vec(types), rest))
}

// Rows up to the bracket behind them.
fn read_rows(alloc: Global, bytes: &[u8]) -> Result<(Seq<Form>, &[u8]), ReadError>
    ensures { Reads (λ x. (x.0, x.1.now)) result (unbounded 59 125 whole_form bytes.now) }
{
    let list = Unbounded {
        between: b';',
        mark: b'}',
        item: FormItem,
    };
    let (rows, rest) = read_chain(alloc, &list, (true, ()), bytes)?;
    Ok((Seq::from_vec(rows), rest))
}

/// A quantifier, and the bytes behind it.
#[tactic(auto, unfolding(crate::specs::TypeReading::quantifier))]
pub(crate) fn read_quantifier(
    alloc: Global,
    bytes: &[u8],
) -> Result<((u32, Seq<Form>), &[u8]), ReadError>
    ensures { Reads (λ x. (x.0, x.1.now)) result (quantifier bytes.now) }
{
    let (vars, rest) = read_any_number(literal(bytes, b"{")?)?;
    let (rows, rest) = read_rows(alloc, literal(rest, b"|")?)?;
    Ok(((vars, rows), rest))
}
