//! Turns of rows that a processor makes on its own store: `loop`, `room` and `clear`.
//!
//! An index of a loop is found by arithmetic, and members that are skipped are looked at once. A
//! turn that gets stuck takes back what it had changed. Of the three, `room` alone takes memory.
#![tactic(auto)]

mod brackets;
mod indices;
mod loops;
mod members;
mod modes;
mod rooms;
mod turns;

pub use loops::loop_turn;
pub use node_stages;
pub use rooms::{clear, room};
pub use turns::LocalTurn;
