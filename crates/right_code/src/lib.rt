//! The code that a program is compiled to is right after every order of turns, where its lowered
//! program shows what it means.
//!
//! The functions here do nothing: each has a law as its contract, and a call brings the law into a
//! proof.
#![tactic(auto)]

mod laws;

pub use laws::{
    accepted_texts_are_shown, code_of_accepted_texts_is_right, code_of_meant_programs_is_right,
};
