//! The regions of brackets and prefixes as rows, and where statements are lowered under them.
#![tactic(auto)]

mod brackets;
mod constants;
mod forms;
mod opened;
mod prefixes;
mod spans;

pub use brackets::{bracket, computed};
pub use constants::{constant_of, constant_region};
pub use lower_places;
pub use lower_places::lower_draft;
pub use opened::Opened;
pub use prefixes::{current_for, open_prefix};
