//! What `gather` prints: the text of an array whose values come from all processors.
#![tactic(auto)]

mod owners;
mod rows;
mod texts;

pub use texts::gather_text;
