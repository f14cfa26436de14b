//! Plans show what their flat programs show.
//!
//! The definitions stand in `specs/`. Nothing here runs.
#![tactic(auto)]
