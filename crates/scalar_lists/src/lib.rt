//! The values of several terms that stand by themselves.
#![tactic(auto)]

mod lists;

pub use array_scalars;
pub use array_scalars::array_values;
pub use lists::values_of;
