//! A row of values put at the places of all tuples of a region, line by line.
//!
//! The region is walked by arithmetic, and no call takes memory. A value takes the place of the one
//! that stands there, or is joined with it. The laws say what that comes to: the array that an
//! assignment means, and folds by places.
#![tactic(auto)]

mod laws;
mod puts;
mod writes;

pub use array_lines;
pub use array_lines::region_places;
pub use laws::writes_are_those_of_functions;
pub use puts::{Aim, Change, Row, put_row};
pub use writes::{solid, three_dims, write_row};
