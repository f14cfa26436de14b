//! Sets of numbers below a bound, as bits of words.
#![tactic(auto)]

mod sets;

pub use sets::BitSet;
