//! Steps that several rows share in which processors work together: the other processors by their
//! place, and values written at listed places of an array.
#![tactic(auto)]

mod partners;
mod writes;

pub use node_local;
pub use node_stages;
pub use partners::{MOST, other, taking_stage};
pub use writes::put_listed;
