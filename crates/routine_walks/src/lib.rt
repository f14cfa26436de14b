//! A text with its names and procedures, and the walk over one procedure under current regions.
#![tactic(auto)]

mod texts;
mod walks;

pub use text_walk::{name_kinds, site_faults, zpl_names, zpl_tree};
pub use texts::{Routine, Text, numbers_of};
pub use walks::walk_under;
