//! What stops a computation that takes memory: a trap of the program, or want of memory.
#![tactic(auto)]

mod stops;

pub use stops::Stop;
