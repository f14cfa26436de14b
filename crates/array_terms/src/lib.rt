//! The terms of a statement, in an arena, with the checks that come before their values.
//!
//! A term is an expression whose regions have been computed, and whose names are places of the
//! store. It lasts as long as the arena that it is placed in.
#![tactic(auto)]

mod checks;
mod terms;

pub use array_store;
pub use checks::{conform, conforms, has_mask_within, is_within, refer, refers};
pub use terms::{Mask, Over, Term, Terms, place_term, place_terms};
