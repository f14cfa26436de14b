//! The lines of listings of node programs, between bytes and keywords with their fields.
//!
//! A table says for each keyword which fields stand behind it; it serves reading and writing. What
//! lines say, as numbers of tables that must be in range, isn't looked at here: their numbers are
//! any of 64 bits.
#![tactic(auto)]

mod fields;
mod forms;
mod keywords;
mod laws;
mod lines;
mod listings;
mod names;
mod numbers;
mod places;

pub use fields::{Field, Mark};
pub use forms::{Kind, Slot};
pub use keywords::Keyword;
pub use laws::{bytes_have_one_reading, lines_are_told_apart};
pub use lines::Line;
pub use listings::{LinesFault, read_lines, write_lines};
pub use names::Name;
pub use node_form;
