//! What stands throughout a function.

use operation_rules::Setting;
use state_types::StateType;
use std::alloc::Global;

/// Where memory comes from, the types and signatures, the states at the function's labels from label 1 on, and its number.
#[derive(Clone, Copy, Drop)]
pub struct Site<'a> {
    /// Where memory comes from.
    pub alloc: Global,
    /// The types, the signatures of all functions, and the function's own.
    pub setting: Setting<'a>,
    /// The states at its labels.
    pub labels: &'a [StateType],
    /// Its number.
    pub fun: u32,
}
