//! The call that goes on from a saved grid: `resume FILE`, with an order of turns, a limit and a
//! report.
//!
//! A saved grid is fetched and read, then the text of an order where the words name one, and the
//! run goes on under that order and then round the processors. Each status has its cause. A run that
//! a call of `exec` saves and one of `resume` goes on with is one run.
#![tactic(auto)]

mod call;
mod laws;
mod lines;
mod runs;
mod texts;

pub use call::resume;
pub use exec_call;
pub use laws::parts_are_one_run;
