//! That the tables of a lowered program fit: the laws of its rows, its expressions and its
//! statements.
//!
//! The functions here do nothing: each has a law of the definitions as its contract, and a call
//! brings the law into a proof.
#![tactic(auto)]

mod laws;

pub use laws::{
    all_code_is_numbered, bodies_are_sound, bodies_fit, calls_fit, declared_names_fit,
    lowered_programs_fit, numbered_code_makes_a_flat_program, operators_fit,
    rows_that_fit_make_flat_programs, statements_fit, storages_are_boxes,
};
pub use lower_numbers::text_sharing;
pub use meaning_ranks;
pub use meaning_ranks::zpl_meaning;
