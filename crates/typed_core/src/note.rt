//! Notes.

use state_types::{StateType, Ty};
use xan_lin::Form;
use xan_seq::Seq;

/// What elaboration leaves for a later pass over the same core, which comes by the same constructs in the same order. Goals go by their
/// numbers in the list of all goals, from 0.
#[derive(Drop)]
pub enum Note {
    /// What is known at a place where control flow parts or meets. The places are the visible variables.
    State(StateType),
    /// A way into a state where control flow meets: the values of that state's new variables, by rising variable; the present types of
    /// the variables whose types the state states, in the order of its clause; and the goals among the rows that it demands.
    Edge {
        values: Seq<(u32, Form)>,
        present: Seq<Ty>,
        goals: Seq<u32>,
    },
    /// The goals among the rows that a construct demands.
    Demand {
        goals: Seq<u32>,
    },
}
