//! Tests of `zpl_io` that use its public items alone.
#![tactic(auto)]

#[cfg(test)]
mod tests;
