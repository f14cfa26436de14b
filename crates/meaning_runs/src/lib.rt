//! What a run of a program comes to, and the laws of it.
//!
//! The definitions stand in `specs/`. The functions here do nothing: each has a law of the
//! definitions as its contract, and a call brings the law into a proof.
#![tactic(auto)]

mod laws;

pub use laws::{
    answers_have_places, met_statements_are_proper, met_statements_are_visited,
    more_comes_of_loops, no_run_comes_to_the_end_of_calls, regions_have_been_computed,
    runs_keep_what_there_is, stores_have_what_names_stand_for, traps_come_of_statements,
};
pub use zpl_meaning;
pub use zpl_meaning::zpl_names;
