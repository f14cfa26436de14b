//! Where a statement is lowered, in memory: what names stand for, the slots of the current regions,
//! and the numbers of the tables.
#![tactic(auto)]

mod index;
mod lines;
mod numbers;
mod places;
mod region_slots;
mod slots;
mod stored;
mod words;

pub use index::Index;
pub use lines::Lines;
pub use lower_draft;
pub use numbers::Numbers;
pub use places::Place;
pub use region_slots::RegionSlots;
pub use slots::{SlotCurrents, SlotEdge, Slotted};
pub use stored::Stored;
pub use words::{put_scalar_words, thing_word, variable_word};
