//! Heights of procedures: numbers that fall with each call.
#![tactic(auto)]

mod chain;
mod graph;
mod heights;
mod laws;
mod walk;

pub use graph::{CallFault, Edge};
pub use heights::heights_of;
pub use laws::heights_leave_no_fault;
