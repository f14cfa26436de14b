//! The timetable of what deterministic processes do in an order of turns.
#![tactic(auto)]

pub mod laws;
