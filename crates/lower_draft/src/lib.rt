//! The tables of a lowered program while they grow.
//!
//! [`Draft`] is pushed row by row, and has besides what the code has of its own: scalars, slots,
//! storages, temporaries and the shifts of reads. [`Draft::into_tables`] makes the tables of it.
//! Contracts say what a function makes of a draft by `grown`: the draft behind which this code was
//! laid out, with what that has of its own.
#![tactic(auto)]

mod calls;
mod draft;
mod floods;
mod fringes;
mod numbers;
mod patches;
mod pushes;
mod rows;
mod shifts;
mod storages;

pub use calls::Call;
pub use draft::Draft;
pub use floods::Flood;
pub use numbers::Next;
pub use patches::Pending;
pub use rows::{FlatMember, FlatPart, FlatRow};
