//! The messages of `part`: its turns, their words, and what they make of a processor's state.
#![tactic(auto)]

mod blocks;
mod folds;
mod joins;
mod parts;
mod reaches;
mod stages;
mod walks;

pub use parts::{part_alone, part_count, part_taken, part_words, part_words_held};
pub use stages::part_stage;
