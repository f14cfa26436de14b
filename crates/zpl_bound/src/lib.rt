//! Binding: what a program without faults comes to under settings.
#![tactic(auto)]

mod binding;

pub use binding::bind;
pub use rank_types;
pub use zpl_bind::{BindFault, Bound, Regions, Settings, Values, Vectors};
