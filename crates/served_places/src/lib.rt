//! That what is asked of statements in lowered code holds in programs without faults.
#![tactic(auto)]

mod laws;

pub use laws::{
    Callables, assigned_arrays_are_served, clean_statements_suit, declared_regions_are_given,
    prefixes_may_be_opened, told_behind_prefixes,
};
