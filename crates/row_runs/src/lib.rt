//! Bounded runs of rows, programs that are rewritten so that their runs stay, and structured code
//! with the rows that it is laid out in.
//!
//! The definitions stand in `specs/`. The functions here do nothing: each has a law of the
//! definitions as its contract, and a call brings the law into a proof.
#![tactic(auto)]

mod laws;
mod likeness;

pub use laws::{
    counters_tell_their_end, laid_out_code_does_the_same, like_rows_keep_runs,
    like_segments_keep_runs, longer_runs_go_on, passes_compose, passes_keep_runs,
    rewritten_rows_are_tied, straight_rows_are_flows, wanting_takes_jumps,
};
pub use likeness::{Knowledge, Likeness};
