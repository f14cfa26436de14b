//! The values of terms by plain functions of a tuple.
//!
//! The meaning runs an expression tuple by tuple, and the first zero divisor ends it. Code that
//! computes one node of an expression at all tuples, and then the next, stands on the definitions
//! here: a value that is always there, and a mark where a divisor was 0.
#![tactic(auto)]

mod laws;

pub use laws::{terms_have_totals, totals_have_their_values};
