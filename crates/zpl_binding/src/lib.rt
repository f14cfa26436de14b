//! What a program's declarations come to under settings: values, regions, vectors and storages, and
//! what is wrong with them.
//!
//! The definitions stand in `specs/`. The functions here do nothing: each has a law of the
//! definitions as its contract, and a call brings the law into a proof.
#![tactic(auto)]

mod laws;

pub use laws::{
    accepted_settings_bind, bound_lists_are_within_limits, bound_lists_follow_the_text,
    closed_lists_have_what_parameters_stand_for, copies_of_the_expanded_program_are_told,
    settings_of_other_names_change_nothing,
};
pub use zpl_arrays;
pub use zpl_arrays::zpl_region;
pub use zpl_names;
pub use zpl_tree;
