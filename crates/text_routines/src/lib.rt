//! The procedures of a text, each with its own names, over the global names; and the faults of
//! all that is declared.
#![tactic(auto)]

mod declarations;
mod heads;
mod texts;

pub use declarations::{Declared, declare_all};
pub use routine_walks;
pub use text_names;
pub use texts::text_of;
