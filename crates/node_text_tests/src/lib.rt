//! Tests of `node_text` that use its public items alone.
#![tactic(auto)]

#[cfg(test)]
mod broken;
#[cfg(test)]
mod drawn;
#[cfg(test)]
mod listings;
#[cfg(test)]
mod reading;
#[cfg(test)]
mod rows;
