//! What the variables of a program hold while it runs.
//!
//! Scalars and arrays stand by their places. The values of an array are one flat list, in row-major
//! order of its storage.
#![tactic(auto)]

mod arrays;
mod stores;

pub use array_writes;
pub use arrays::Array;
pub use stores::Store;
pub use zpl_meaning::zpl_arrays;
