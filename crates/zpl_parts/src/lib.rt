//! What binding looks at in a program's text, in its order: the vectors in statements, the borders
//! `d of R`, the reads that wrap round, and the calls.
#![tactic(auto)]

mod declarations;
mod expressions;
mod parts;
mod statements;

pub use declarations::parts_of_text;
pub use parts::{Part, Parts};
pub use statements::parts_of_body;
pub use zpl_tree;
