//! The messages of `remap`: requests and answers, and what its turns make of a processor's state.
#![tactic(auto)]

mod answers;
mod counts;
mod rows;
mod sources;
mod stages;
mod turns;
mod wants;
mod words;

pub use rows::RemapRow;
pub use stages::{remap_awaits, remap_stage};
pub use turns::{remap_alone, remap_taken};
pub use words::{remap_words, remap_words_held};
