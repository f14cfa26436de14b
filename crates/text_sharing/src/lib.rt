//! Equal texts of tables stand once.
//!
//! [`share_texts`] makes tables so. The other functions do nothing: each has a law of what it makes
//! as its contract, and a call brings the law into a proof.
#![tactic(auto)]

mod different;
mod laws;
mod share;

pub use flat_form::node_form;
pub use laws::{
    rows_are_the_same_inline, shared_tables_are_no_larger, shared_tables_fit,
    shared_texts_are_different,
};
pub use share::share_texts;
