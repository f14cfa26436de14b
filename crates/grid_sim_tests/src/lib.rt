//! Tests of grids that run, through their public calls.
#![tactic(auto)]

#[cfg(test)]
mod grids;
#[cfg(test)]
mod listings;
#[cfg(test)]
mod runs;
#[cfg(test)]
mod turns;
