//! From flat programs to node code: the passes one behind the other.
#![tactic(auto)]

mod asked;
mod builds;
mod codes;
mod faults;
mod laws;

pub use builds::Build;
pub use codes::code_of;
pub use faults::FlatFault;
pub use laws::node_tables_fit;
