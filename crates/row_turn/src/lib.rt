//! Rows in which the processors of a grid work together: what a processor does in its next turn of
//! such a row, whichever it is.
#![tactic(auto)]

mod agreements;
mod answers;
mod edges;
mod exchanges;
mod floods;
mod gathers;
mod held;
mod messages;
mod parts;
mod remaps;
mod rows;
mod scans;
mod slots;
mod turns;

pub use answers::{OwnTurn, Receipt};
pub use held::has_words;
pub use messages::{message_for, take_message};
pub use node_control;
pub use rows::{is_together, learn_partners, leave_partners, row_stage};
pub use turns::{alone_turn, last_turn};
