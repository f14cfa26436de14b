//! The rules of tables, said of the lines of a listing: each line is that of a row that fits what
//! stands in front of it.
#![tactic(auto)]

mod blocks;
mod facts;
mod faults;
mod fits;
mod found;
mod groups;
mod heads;
mod laws;
mod lines;
mod parts;
mod reads;
mod rooms;
mod same;
mod tables;

pub use faults::ListFault;
pub use laws::{lines_have_one_reading, told_tables_fit};
pub use listing_rows;
pub use listing_rows::listing_lines;
pub use tables::read_tables;
