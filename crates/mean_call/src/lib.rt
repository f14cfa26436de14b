//! The call `mean FILE`: it prints what the program of a file means, and ends as the meaning does.
#![tactic(auto)]

mod call;
mod files;
mod texts;

pub use bound_texts::call_answers;
pub use call::mean;
