//! The faults that speak of current regions, judged under what chains of calls give procedures.
#![tactic(auto)]

mod pairs;
mod regions;

pub use pairs::{Pair, Pairs};
pub use regions::region_fault;
