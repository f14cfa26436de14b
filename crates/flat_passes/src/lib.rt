//! What the passes over flat programs share: code that is rewritten stretch by stretch, and rows
//! with their groups inline.
//!
//! A pass writes new rows, one old row after another, and notes in [`NewNumbers`] where each old
//! row comes to stand. Its jumps and tests lead to the old numbers until
//! [`NewNumbers::move_goals`] gives them the new ones. A [`Draft`] has such rows, with the groups
//! of their loops.
#![tactic(auto)]

mod draft;
mod numbers;

pub use draft::Draft;
pub use flat_form::{node_form, zpl_arrays, zpl_region};
pub use numbers::{NewNumbers, number_of};
