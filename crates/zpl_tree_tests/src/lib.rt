//! Tests of `zpl_tree`: what trees are printed as.
#![tactic(auto)]

#[cfg(test)]
mod tests;
