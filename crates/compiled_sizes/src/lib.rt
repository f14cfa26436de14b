//! How large the code is that a program is compiled to.
//!
//! The functions here do nothing: each has a law of the definitions as its contract, and a call
//! brings the law into a proof.
#![tactic(auto)]

mod laws;

pub use laws::{compiled_code_is_laid_out, compiled_code_is_small};
pub use lowering_checks;
pub use lowering_sizes;
