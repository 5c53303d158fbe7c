//! The rule of each operation.

ghost use Rattle.std.specs.Prelude.{◌≡◌, ◌≤◌};
ghost use Rattle.operation_rules.specs.Answers.{Gives};
ghost use Rattle.operation_rules.specs.Rules as spec;
ghost use Rattle.operation_rules.specs.Settings.{HasFew, setting_of};

use crate::arrays::{allocated, loaded, measured, stored};
use crate::calls::{called, returned};
use crate::error::RuleError;
use crate::numbers::{quotient, remainder};
use crate::operation::Operation;
use crate::plain::{
    branched, branched_truth, compared, difference, jumped, literal, moved, multiplied, printed,
    sum, truth,
};
use crate::rule::Rule;
use crate::setting::Setting;
use crate::tuples::{constructed, split};
use state_types::Ty;
use std::alloc::Global;

/// The rule of an operation by the types that it reads, where `first` is the number of the next variable: what it demands, what is
/// taken to hold, and what it gives. A fault comes exactly where there is no rule, and is the first by the order of the faults.
#[tactic(auto, unfolding(crate::specs::Rules::rule))]
pub fn rule_of(
    alloc: Global,
    st: &Setting<'_>,
    op: &Operation,
    types: &[Ty],
    first: u32,
) -> Result<Rule, RuleError>
    requires few { HasFew (setting_of st.now) }
    requires room { first ≤ 1024 }
    ensures { Gives (λ rule. rule) result (spec.rule (setting_of st.now) op.now types.now first) }
{
    match op {
        Operation::Literal(number) => literal(alloc, number, types, first),
        Operation::Truth(_) => truth(alloc, types),
        Operation::Move => moved(alloc, types),
        Operation::Add => sum(alloc, types, first),
        Operation::Sub => difference(alloc, types, first),
        Operation::Mul => multiplied(alloc, types, first),
        Operation::Div => quotient(alloc, types, first),
        Operation::Mod => remainder(alloc, types, first),
        Operation::Compare(_) => compared(alloc, types),
        Operation::Branch(_) => branched(alloc, types),
        Operation::BranchTruth(_) => branched_truth(alloc, types),
        Operation::Jump => jumped(alloc, types),
        Operation::Call(fun) => called(alloc, st, first, *fun, types),
        Operation::Return => returned(alloc, st.own, types),
        Operation::Length => measured(alloc, types),
        Operation::Load => loaded(alloc, st, types, first),
        Operation::Store => stored(alloc, st, types),
        Operation::New(cells) => allocated(alloc, st, *cells, types),
        Operation::Tuple(number) => constructed(alloc, st, *number, types),
        Operation::Untuple(number, count) => split(alloc, st, first, *number, *count, types),
        Operation::Print => printed(alloc, types),
    }
}
