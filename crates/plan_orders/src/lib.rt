//! Orders of turns that do what a plan does, row by row and run by run.
#![tactic(auto)]

pub mod laws;
