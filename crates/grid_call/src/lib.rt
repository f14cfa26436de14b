//! Runs of code that is there, as the words of a command ask for them: with an order of turns, a
//! limit, a report and a capacity of links.
//!
//! The text of an order is fetched where the words name one, and read, and the code is run under
//! that order and then round the processors.
#![tactic(auto)]

mod call;
mod orders;
mod runs;

pub use call::{run_code, run_round};
pub use call_answers;
pub use call_answers::{exec_claims, grid_sim, row_turn};
pub use orders::fetch_order;
pub use runs::{answer_of, report_for};
