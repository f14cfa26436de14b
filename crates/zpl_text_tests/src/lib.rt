//! Tests of `zpl_text` that use its public items alone.
#![tactic(auto)]

#[cfg(test)]
mod tests;
