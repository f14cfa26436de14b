//! The names of a text and its procedures, and the faults of its declarations.
#![tactic(auto)]

mod declarations;
mod found;
mod heads;
mod stops;
mod tables;

pub use declarations::{declare_defines, declare_directions, declare_regions, declare_vars};
pub use found::{define_found, direction_found, region_found, resumed, variables_found};
pub use heads::{formals, hiding_names, own_table, walk_head, walk_locals, walk_params};
pub use stops::Stop;
pub use tables::{add_name, add_names};
pub use text_walk;
