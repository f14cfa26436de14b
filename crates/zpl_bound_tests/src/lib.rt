//! Tests of binding over texts that were judged, with what other crates can name alone.
#![tactic(auto)]

#[cfg(test)]
mod binding;
#[cfg(test)]
mod copies;
#[cfg(test)]
mod faults;
