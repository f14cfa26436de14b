//! Checks in front of the loops of lowered programs.
//!
//! The functions here do nothing: each has a law of the definitions as its contract, and a call
//! brings the law into a proof.
#![tactic(auto)]

mod laws;

pub use laws::{
    all_rows_are_inline, checks_say_what_follows, loops_are_checked, loops_are_prepared,
    loops_read_apart, loops_stand_where_others_do, puts_are_alike, totals_stand_apart,
};
