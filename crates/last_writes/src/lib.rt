//! The rows that wrote arrays and slots last, while a pass goes along the rows of a stretch.
//!
//! A pass keeps a [`LastWrites`] and notes each row. Whether an item has been written since some
//! row is then told by one look, however many rows or items there are.
#![tactic(auto)]

mod numbers;
mod writes;

pub use numbers::Noted;
pub use plan_form;
pub use plan_form::{flat_passes, node_form};
pub use writes::LastWrites;
