//! The checker of names, ranks and types: programs without faults, and how their faults are told.
#![tactic(auto)]

mod checks;
mod faults;
mod judging;
mod names;
mod statements;
mod symbols;
mod typed;

pub use checks::check_found;
pub use faults::Fault;
pub use judging::judge;
pub use names::global_names;
pub use symbols::{NameKind, Symbols};
pub use typed::Typed;
