//! State types: what is known of the words in places, and when one state type meets another.
//!
//! A [`Ty`] says what a word is: a number with the value of a linear form, a truth value, an array of a length, or a tuple. Index
//! variables stand for numbers that are not written out. A [`StateType`] gives types to places, over a context of such variables, and
//! a closed type or a signature quantifies its own. The crate finds the values of quantified variables and the rows that a target
//! demands, and promises that where these rows are entailed the target holds. It stands on `index_sorts`, `xan_lin` and `xan_seq`.
#![tactic(auto)]

mod closed;
mod copying;
mod edge;
mod error;
mod laws;
mod matching;
mod naming_laws;
mod pairs;
mod place_map;
mod refusal_laws;
mod rows;
mod state;
mod store_laws;
mod table;
mod types;
mod unpacking;
mod values;

pub use crate::closed::{Packed, Signature};
pub use crate::edge::meets;
pub use crate::error::StateError;
pub use crate::laws::{
    edges_are_sound, matches_are_sound, met_states_hold, typed_words_carry_over, unpacking_is_sound,
};
pub use crate::matching::{Found, match_params, match_types, pack_goals};
pub use crate::naming_laws::{
    edges_name_present_variables, matches_list_the_targets_variables,
    matches_name_present_variables, replaced_types_name_present_variables,
    unpacked_types_name_fresh_variables,
};
pub use crate::place_map::Places;
pub use crate::refusal_laws::{absent_places_are_found_first, kinds_are_compared_first};
pub use crate::state::StateType;
pub use crate::store_laws::{
    appended_words_keep_headers, words_keep_their_types, written_cells_keep_headers,
};
pub use crate::table::TypeTable;
pub use crate::types::{Ty, TypeId, subst_type};
pub use crate::unpacking::unpack;
pub use index_sorts::{Context, ContextError};
pub use xan_lin::Memory;
