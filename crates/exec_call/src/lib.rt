//! The call that runs a listing: `exec FILE`, with an order of turns, a limit, a report and a
//! capacity of links, with a check of the code, or with a saved grid.
//!
//! A listing is fetched and read, then the text of an order where the words name one, and the
//! listed code is run under that order and then round the processors. Each status has its cause.
//! Where the words ask for it and all turns were given, the grid is saved.
#![tactic(auto)]

mod call;
mod checks;
mod saves;
mod telling;

pub use call::exec;
pub use listing_code;
pub use listing_code::{call_answers, grid_call, grid_sim, row_turn};
pub use resume_claims;
pub use telling::{Telling, tell};
