//! Saved grids, read whole: from bytes to grids that go on.
#![tactic(auto)]

mod cuts;
mod heads;
mod laws;
mod links;
mod saves;

pub use laws::texts_are_saved_or_faulty;
pub use saves::read_save;
