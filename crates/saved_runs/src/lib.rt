//! What runs keep of the grids that they are given: these can be saved.
//!
//! The function here does nothing: it has a law as its contract, and a call brings the law into a
//! proof.
#![tactic(auto)]

mod laws;

pub use grid_save;
pub use laws::runs_stay_onward;
