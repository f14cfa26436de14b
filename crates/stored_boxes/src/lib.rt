//! The stored arrays of lowered tables, beside those of the program.
//!
//! The functions here do nothing: each has a law of the definitions as its contract, and a call
//! brings the law into a proof.
#![tactic(auto)]

mod laws;

pub use laws::{
    arrays_are_as_many, arrays_are_different, expressions_note_their_reads,
    fringes_are_greatest_shifts, names_are_stored_as_declared,
};
