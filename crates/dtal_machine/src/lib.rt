//! The machine that runs the object words of an accepted program.
//!
//! [`Machine::load`] answers exactly the first fault of the arguments, that there is no room for them, or a machine at the first state; it
//! takes all memory of the run. [`Machine::step`] makes exactly the step of `dtal_code`'s machine and tells what it did: it takes no memory,
//! tests no index, no header, no place and no target, and refuses nothing, since an accepted program is never stuck, which `dtal_safety`
//! proves. It stands on these two, on `argument_checks`, `operation_rules`, `state_types` and `xan_lin`, and on `xan_io`.
#![tactic(auto)]

mod advance;
mod arguments;
mod arithmetic;
mod blocks;
mod calls;
mod done;
mod entry;
mod event;
mod laws;
pub mod limits;
mod loading;
mod machine;
mod numbers;
mod perform;
mod places;
mod run;
mod signature;
mod store;
mod words;

pub use event::Event;
pub use laws::steps_make_the_run;
pub use loading::LoadError;
pub use machine::Machine;
pub use signature::main_signature;
