//! The reading of edges: the values of variables, by rising variable.

ghost use Rattle.std.specs.Prelude.{◌≡◌};
ghost use Rattle.xan_read.specs.Code.{Reads};
ghost use Rattle.dtal_code.specs.declared.limits.TheConstants.{LAST_NUMBER};
ghost use Rattle.dtal_text.specs.Listings.{listed_item, listed_next, is_up_to, above};
ghost use Rattle.dtal_text.specs.OperandReading.{value_from, edge};

use crate::chain::{Chained, read_chain};
use crate::listed::read_listed;
use dtal_code::limits::LAST_NUMBER;
use proof_lines::read_form;
use std::alloc::Global;
use xan_lin::Form;
use xan_read::{Production, ReadError, literal, number};
use xan_seq::Seq;

// The value of a variable from a number on.
#[derive(Drop)]
struct Value {
    low: u64,
}

impl Production for Value {
    type Value = (u32, Form);

    ghost reader = { λ value. value_from value.low };

    #[tactic(auto, unfolding(crate::specs::OperandReading::value_from))]
    fn read<'a>(
        &self,
        alloc: Global,
        bytes: &'a [u8],
    ) -> Result<((u32, Form), &'a [u8]), ReadError> {
        let _ = alloc;
        let (variable, rest) = number(literal(bytes, b"v")?, self.low, u64::from(LAST_NUMBER))?;
        let (form, rest) = read_form(literal(rest, b"=")?)?;
        Ok(((variable as u32, form), rest))
    }
}

// Values of rising variables. The state is whether none has come, and the least variable that may.
struct Values;

impl Chained for Values {
    type State = (bool, u64);

    type Item = (u32, Form);

    ghost use Rattle.dtal_text.specs.Listings.{listed_item, listed_next, is_up_to, above};
    ghost use Rattle.dtal_text.specs.OperandReading.{value_from};
    ghost use Rattle.dtal_code.specs.declared.limits.TheConstants.{LAST_NUMBER};

    ghost reader = { λ _ state. listed_item 44 125 (is_up_to LAST_NUMBER) value_from state };

    ghost behind = { λ _ state item. listed_next above state item };

    #[tactic(auto, using(crate::proofs::ChainLoops::same_listed))]
    fn read<'a>(
        &self,
        alloc: Global,
        state: (bool, u64),
        bytes: &'a [u8],
    ) -> Result<(Option<(u32, Form)>, &'a [u8]), ReadError> {
        let (first, low) = state;
        let may = low <= u64::from(LAST_NUMBER);
        read_listed(alloc, b',', b'}', may, first, &Value { low }, bytes)
    }

    fn next(&self, _state: (bool, u64), item: &(u32, Form)) -> (bool, u64) {
        (false, u64::from(item.0) + 1)
    }
}

/// What an instruction lists where it goes to a label, and the bytes behind it.
#[tactic(auto, unfolding(crate::specs::OperandReading::edge))]
pub(crate) fn read_edge(alloc: Global, bytes: &[u8]) -> Result<(Seq<(u32, Form)>, &[u8]), ReadError>
    ensures { Reads (λ x. (x.0, x.1.now)) result (edge bytes.now) }
{
    let rest = literal(bytes, b"{")?;
    let (values, rest) = read_chain(alloc, &Values, (true, 0), rest)?;
    Ok((Seq::from_vec(values), rest))
}
