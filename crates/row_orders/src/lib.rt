//! Orders that lead all processors through a row of node code, one row after another.
#![tactic(auto)]

pub mod laws;
