//! That each accepted program is lowered to the tables of a flat program.
//!
//! The functions here do nothing: each has a law of the definitions as its contract, and a call
//! brings the law into a proof.
#![tactic(auto)]

mod laws;

pub use laws::{
    declarations_fit, lowered_programs_are_flat, lowered_rows_are_inline, lowered_tables_are_typed,
    parsed_names_stand_apart, storages_fit,
};
pub use lowering_fits;
