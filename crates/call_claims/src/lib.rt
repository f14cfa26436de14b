//! What a call of the program says: the words, the answer with its status, and the parts of causes
//! that commands share.
//!
//! The definitions stand in `specs/`. The function here does nothing: it has a law of the
//! definitions as its contract, and a call brings the law into a proof.
#![tactic(auto)]

mod laws;
mod limits;
mod ran;
pub mod status;

pub use laws::commands_are_one;
pub use limits::{
    MOST_DIGITS, MOST_FACTOR_DIGITS, MOST_LATENCY, MOST_LINKS, MOST_SEED, MOST_TURNS,
};
pub use ran::Ran;
