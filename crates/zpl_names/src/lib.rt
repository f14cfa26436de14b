//! What is known of a program from its text alone: what its names stand for, the ranks and types of
//! its expressions, its faults, and the program with every call expanded.
//!
//! The definitions stand in `specs/`. The functions here do nothing: each has a law of the
//! definitions as its contract, and a call brings the law into a proof.
#![tactic(auto)]

mod laws;

pub use laws::{
    closed_lists_have_what_is_reached, counts_add_up, declared_ranks_are_at_most_three,
    falling_numbers_bound_calls, faultless_programs_are_shallow,
    faultless_programs_have_faultless_sites, faultless_programs_leave_nothing_open,
    faultless_sites_have_ranks, faults_are_those_of_sites, more_depth_changes_nothing,
    names_stand_for_their_entries, procedures_are_there, ranks_are_at_most_three,
};
