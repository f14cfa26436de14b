//! The call that checks a listing: `check FILE`.
//!
//! A listing is fetched and read, and its code checked: whether it is sound, and how many messages
//! links have to hold then. Each status has its cause.
#![tactic(auto)]

mod call;
mod puts;

pub use call::check;
pub use check_claims;
