//! Tests of orders of turns, through their public calls.
#![tactic(auto)]

#[cfg(test)]
mod tests;
