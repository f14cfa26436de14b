//! That lowered code does under prefixes what programs mean.
#![tactic(auto)]

mod laws;

pub use laws::{
    Bounds, Callables, Leaves, Standing, Tests, prefixes_go_alike, statements_go_alike,
    statements_with_arrays_go_alike,
};
