//! How large a lowered program is.
//!
//! The functions here do nothing: each has a law of the definitions as its contract, and a call
//! brings the law into a proof.
#![tactic(auto)]

mod laws;

pub use laws::{counted, sizes, texts_are_strings, texts_hold_their_words};
