//! Tests of `reduce_plan` that use its public items alone.
#![tactic(auto)]

#[cfg(test)]
mod tests;
