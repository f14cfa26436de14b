//! Which processors can own places that one needs, and which can need places that it owns: some
//! blocks next to each other in each dimension, walked in the order of the processors' numbers.
#![tactic(auto)]

mod cuts;
mod edges;
mod reaches;
mod spans;

pub use edges::{sources_for, targets_of};
pub use move_plan;
pub use reaches::{Reach, Span};
pub use spans::{needers_of, owners_for};
