//! The messages of `scan`: their words, and what the last turn of such a row makes of a processor's
//! state.
#![tactic(auto)]

mod laws;
mod lines;
mod parts;
mod rows;
mod scans;
mod stages;
mod sums;
mod values;

pub use laws::kept_totals_are_of_others;
pub use rows::ScanRow;
pub use scans::{scan_last, scan_words, scan_words_held};
pub use stages::{scan_awaits, scan_stage};
