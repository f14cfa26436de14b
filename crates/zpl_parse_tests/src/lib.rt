//! Tests of what the parser makes of texts, with what other crates can name alone.
#![tactic(auto)]

#[cfg(test)]
mod bodies;
#[cfg(test)]
mod every_form;
#[cfg(test)]
mod groups;
#[cfg(test)]
mod nests;
#[cfg(test)]
mod places;
#[cfg(test)]
mod printed;
#[cfg(test)]
mod reading;
#[cfg(test)]
mod shown;
#[cfg(test)]
mod two_forms;
