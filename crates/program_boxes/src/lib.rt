//! The stored arrays of lowered tables are the program's.
//!
//! The functions here do nothing: each has a law of the definitions as its contract, and a call
//! brings the law into a proof.
#![tactic(auto)]

mod laws;

pub use laws::{
    boxes_are_stored, boxes_of_texts_are_stored, code_has_what_is_expanded,
    parsed_texts_are_told_apart,
};
pub use lowered_flat;
