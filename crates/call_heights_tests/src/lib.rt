//! Tests of the heights of procedures, through their public calls.
#![tactic(auto)]

#[cfg(test)]
mod tests;
