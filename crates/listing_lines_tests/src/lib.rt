//! Tests of `listing_lines` that use its public items alone.
#![tactic(auto)]

#[cfg(test)]
mod reading;
#[cfg(test)]
mod whole;
#[cfg(test)]
mod wrong;
