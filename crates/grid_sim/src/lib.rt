//! A grid of processors that runs node code, turn by turn, in any order.
#![tactic(auto)]

mod counts;
mod faults;
mod locals;
mod looks;
mod marks;
mod processors;
mod readers;
mod restores;
mod runs;
mod sims;
mod starts;
mod turns;

pub use counts::Counts;
pub use faults::SimFault;
pub use locals::Locals;
pub use node_turn::{Local, StuckKind, row_turn};
pub use runs::{Rounds, next_turn};
pub use sims::Sim;
pub use turns::{Told, Turned};
