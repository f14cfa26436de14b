//! Saved grids, read: the states of processors from their lines.
#![tactic(auto)]

mod boxes;
mod faults;
mod laws;
mod lines;
mod messages;
mod places;
mod reads;
mod slots;
mod values;

pub use faults::{StateFault, bad_state};
pub use laws::{messages_have_one_reading, values_have_one_reading};
pub use lines::keep;
pub use messages::{Sent, processor_count, take_messages};
pub use reads::read_values;
