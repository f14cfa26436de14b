//! The state of one processor of a grid, as it runs node code.
//!
//! Each array's held places stand in one flat vector, addressed by arithmetic on their box. What a
//! turn works with, a stack for expressions and a log of changes, is taken before the first turn.
//! Contracts see the state as `grid_meaning` defines it.
#![tactic(auto)]

mod changes;
mod locals;
mod logs;
mod memories;
mod places;
mod readers;
mod standings;
mod starts;
mod steps;
mod stores;
mod values;

pub use locals::Local;
pub use standings::{Kept, KeptWords, Slots, Standing, Store, Stores};
pub use starts::no_places;
pub use values::NoValue;
