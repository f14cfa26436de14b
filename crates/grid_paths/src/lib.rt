//! Paths of deterministic processes over links: what orders make of worlds that are told by
//! functions.
#![tactic(auto)]

pub mod laws;
