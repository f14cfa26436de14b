//! The call that runs a program drawn from a number on four grids, one after another, and tells
//! what it printed on each.
#![tactic(auto)]

mod call;
mod lines;
mod runs;

pub use call::generate;
pub use exec_call;
pub use gen_claims::run_claims;
pub use text_code;
pub use text_code::list_claims;
