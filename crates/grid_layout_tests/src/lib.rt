//! Tests of `grid_layout` that use its public items alone.
#![tactic(auto)]

#[cfg(test)]
mod pieces;
#[cfg(test)]
mod tests;
