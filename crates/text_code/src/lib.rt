//! From the bytes of a text to its node code, as the words of a command ask for it.
#![tactic(auto)]

mod compiling;
mod texts;

pub use list_claims;
pub use texts::code_of_text;
