//! What operators on arrays mean, free of names and of any syntax.
//!
//! The definitions stand in `specs/`, and their laws are contracts of functions that do nothing.
//! The meaning of programs, the plans and the rows of node code all cite them.
#![tactic(auto)]

mod checks;
mod folds;
mod laws;
mod reductions;
mod sources;

pub use checks::{border_conforms, flood_conforms, is_reference, reduction_conforms};
pub use folds::{fold_of, scan_line};
pub use laws::{
    arrays_are_their_elements, border_sources_are_sources, copies_hold_what_wraps_round,
    elements_are_the_values_given, folds_go_by_parts, references_lie_where_their_tuples_do,
    running_scans_lines, scans_go_by_lines, sources_lie_where_they_should,
    tuples_stand_at_their_places, updates_change_one_element,
};
pub use reductions::agrees;
pub use sources::{around_coordinate, border_coordinate, border_source, flood_coordinate};
pub use zpl_nums;
pub use zpl_region;
