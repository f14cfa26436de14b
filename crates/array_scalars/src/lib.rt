//! The values of terms that stand by themselves, as tests and limits of loops do.
#![tactic(auto)]

mod folds;
mod nowhere;
mod scalars;
mod values;

pub use array_values;
pub use scalars::Scalar;
pub use values::scalar_value;
