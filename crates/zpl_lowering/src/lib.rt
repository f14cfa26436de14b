//! The lowering of programs.
#![tactic(auto)]

pub use text_sharing;
pub use text_sharing::node_form;
pub use zpl_meaning::zpl_tree;
