//! Tests of settings, and of what declarations come to under them, with what other crates can name
//! alone.
#![tactic(auto)]

#[cfg(test)]
mod binding;
#[cfg(test)]
mod limits;
#[cfg(test)]
mod lists;
#[cfg(test)]
mod settings;
