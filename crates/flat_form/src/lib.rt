//! Flat programs: rows of node code but for those that send messages, which act on whole arrays.
//!
//! [`Flat`] is a program. What its rows do, and its bounded runs, are defined in `specs/`. The
//! other functions do nothing: each has a law of these definitions as its contract, and a call
//! brings the law into a proof.
#![tactic(auto)]

mod flat;
mod laws;

pub use code_parts::{zpl_arrays, zpl_region};
pub use flat::Flat;
pub use grid_meaning::node_form;
pub use laws::{
    added_rows_are_read_again, goals_may_be_patched, inline_groups_have_the_same_trees,
    inline_rows_are_controlled_alike, longer_flat_runs_go_on, rows_change_what_they_write,
    rows_go_by_names, states_stay_whole,
};
