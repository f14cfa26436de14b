//! Tests of timetables, through their public calls.
#![tactic(auto)]

mod adding;
#[cfg(test)]
mod tests;

pub use adding::{Told, add_all, fill};
