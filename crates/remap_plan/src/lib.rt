//! Reads of an array at tuples that are computed: requests to the processors that own the tuples,
//! and their answers.
//!
//! Tuples are lists of words, one behind the other, each with as many components as the array's
//! rank.
#![tactic(auto)]

mod homes;
mod laws;
mod requests;

pub use homes::home;
pub use laws::{each_wanted_tuple_is_asked_once, what_is_asked_is_at_home};
pub use requests::{answers, asks};
