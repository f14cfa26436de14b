//! The call that times the run of a listing: `time FILE`, with an order of turns, a limit and a
//! latency of messages.
//!
//! A listing is fetched and read, then the text of an order where the words name one, and the
//! listed code is run under that order and then round the processors, each move being added to a
//! table. Where the run is over, what the table tells is put. Each status has its cause.
#![tactic(auto)]

mod call;
mod runs;
mod tables;

pub use call::time;
