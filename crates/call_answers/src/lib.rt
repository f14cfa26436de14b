//! The answers of all calls: their statuses, what is told of them on the stream for errors, and the
//! files that calls fetch.
#![tactic(auto)]

mod answers;
mod fetches;
mod lines;
mod refusals;
mod telling;
mod work;

pub use answers::{Answer, Stop};
pub use exec_claims;
pub use fetches::text_of_file;
pub use grid_sim;
pub use grid_sim::row_turn;
pub use refusals::{BuildFault, Refusal};
pub use telling::told;
pub use work::{Work, answered};
