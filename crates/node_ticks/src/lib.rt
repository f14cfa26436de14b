//! The timetable of a run of node code.
#![tactic(auto)]

pub mod laws;
