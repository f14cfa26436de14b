//! What is claimed of the code that is made of a program: the words that the contracts above are
//! made of.
//!
//! The definitions stand in `specs/`; what runs is elsewhere.
#![tactic(auto)]

mod options;

pub use grid_meaning::node_form;
pub use options::Options;
