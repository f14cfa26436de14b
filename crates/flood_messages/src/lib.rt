//! The messages of `flood`: its turns, their words, and what they make of a processor's state.
#![tactic(auto)]

mod floods;
mod pieces;
mod sources;
mod stages;

pub use floods::{flood_alone, flood_taken, flood_words, flood_words_held};
pub use pieces::flood_tuples;
pub use stages::flood_stage;
