//! Tests of `zpl_arrays` that use its public items alone.
#![tactic(auto)]

#[cfg(test)]
mod tests;
#[cfg(test)]
mod wide;
