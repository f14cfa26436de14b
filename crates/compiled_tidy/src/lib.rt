//! That the code that a program is compiled to is tidy.
//!
//! The functions here do nothing: each has laws of the definitions as its contract, and a call
//! brings them into a proof.
#![tactic(auto)]

mod laws;

pub use laws::{accepted_code_is_tidy, compiled_code_is_tidy, letters_are_kept};
