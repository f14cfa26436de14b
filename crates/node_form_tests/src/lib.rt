//! Tests of `node_form` that use public items alone.
#![tactic(auto)]

#[cfg(test)]
mod listings;
#[cfg(test)]
mod reading;
#[cfg(test)]
mod rules;
#[cfg(test)]
mod touching;
