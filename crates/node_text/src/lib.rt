//! The listing of a node program: written, and read again.
#![tactic(auto)]

mod laws;
mod listings;

pub use laws::{bytes_have_one_program, what_is_read_is_written_back, what_is_written_is_read};
pub use listing_rules::ListFault;
pub use listing_rules::listing_rows::write_listing;
pub use listings::read_listing;
