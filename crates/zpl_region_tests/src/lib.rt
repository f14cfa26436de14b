//! Tests of `zpl_region` that use its public items alone.
#![tactic(auto)]

#[cfg(test)]
mod tests;
