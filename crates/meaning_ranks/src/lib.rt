//! That ranks agree wherever a program is run, that the current regions are as the text says, and
//! that a procedure which answers has come to its `return`.
//!
//! The definitions stand in `specs/`. The functions here do nothing: each has a law of the
//! definitions as its contract, and a call brings the law into a proof.
#![tactic(auto)]

mod laws;

pub use laws::{
    answers_come_of_returns, borders_are_of_arrays, current_regions_have_their_ranks,
    no_flood_dimension_is_walked, prints_and_borders_have_no_mask, ranks_agree,
};
pub use meaning_runs::{zpl_meaning, zpl_names};
