//! From the bytes of a text to its program, and to what settings bind it to: what the commands on
//! texts share.
#![tactic(auto)]

mod settings;
mod texts;

pub use call_answers;
pub use mean_claims;
pub use settings::settings_of;
pub use texts::{Accepted, accepted_text, accepted_tree, tokens_of, tree_of};
