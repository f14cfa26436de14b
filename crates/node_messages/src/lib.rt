//! The messages of rows in which the processors of a grid work together: their words, and what
//! words that were taken and the last turn make of a processor's state.
#![tactic(auto)]

mod agreements;
mod places;

pub use agreements::Agreement;
pub use node_local;
pub use node_stages;
pub use node_stages::{node_form, region_places};
pub use places::push_values;
