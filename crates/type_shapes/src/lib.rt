//! The types and headers of a source, from its tree.
//!
//! Names of types are numbered, index expressions become linear forms and relations rows, quantifiers are opened and closed around the
//! types under them, and each header is read, or the first fault is met. It stands on `xanadu_tree` for both trees, and on `xan_io` and
//! `xan_seq` for names and lists.
#![tactic(auto)]

mod error;
mod form;
mod frame;
mod headers;
mod index;
mod kinds;
mod main_function;
mod names;
mod scope;
mod table;
mod types;

pub use error::{ShapeError, ShapeKind};
pub use frame::{Frame, open};
pub use headers::{
    Functions, Given, Header, add_headers, add_packings, add_type_names, header_at, no_functions,
};
pub use index::known;
pub use kinds::{element_kind, kind_at, kind_of, parts_of, same_kind};
pub use main_function::main_number;
pub use names::{add_parameter_names, add_quantifier_names};
pub use scope::Scope;
pub use table::Table;
pub use types::{Types, element_number, narrowed, no_types, place_of_type, tuple_type, type_in};
