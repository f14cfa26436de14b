//! The listing of a node program: what a program's tables are written as.
//!
//! Each row becomes a line, a keyword with its fields, and `listing_lines` writes it.
#![tactic(auto)]

mod fields;
mod instructions;
mod listings;
mod rows;

pub use fields::{Said, line_of};
pub use instructions::instr_line;
pub use listing_lines;
pub use listings::{grid_line, slots_line, write_listing};
pub use rows::{array_line, expr_line, item_line, member_line, text_line};
