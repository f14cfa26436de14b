//! Masks as rows: a truth value for each tuple of a region.
#![tactic(auto)]

mod masks;

pub use array_terms;
pub use masks::{push_everywhere, push_kept};
