//! What a program means: the bytes that it prints and how it ends, for a bound on the turns of each
//! loop.
//!
//! The definitions stand in `specs/`; what runs is elsewhere. The functions here do nothing: each
//! has a
//! law of the definitions as its contract, and a call brings the law into a proof.
#![tactic(auto)]

mod laws;

pub use laws::{
    endings_stay, loops_alone_want_more, meaning_grows, no_call_is_cut_off, no_stand_in_is_met,
    scalars_have_their_values, traps_leave_nothing_behind, visited_statements_make_visited_calls,
    what_is_computed_has_a_value,
};
pub use zpl_binding;
pub use zpl_binding::{zpl_arrays, zpl_names, zpl_region, zpl_tree};
