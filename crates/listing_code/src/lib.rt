//! The code of a listing: its file is fetched and its text read, or the answer says why there is
//! none; and the check that code is sound.
#![tactic(auto)]

mod checks;
mod fetches;

pub use checks::check_code;
pub use fetches::fetch_code;
pub use grid_call;
pub use grid_call::{call_answers, exec_claims, grid_sim, row_turn};
