//! Reads the tree of a program from the tokens of its text.
//!
//! Recursive descent: the functions follow the rules of the grammar, with the depth that is left.
#![tactic(auto)]

mod classes;
mod declarations;
mod expressions;
mod faults;
mod groups;
mod laws;
mod placing;
mod programs;
mod regions;
mod statements;
mod tokens;

pub use faults::ParseFault;
pub use laws::{
    printed_trees_are_parsed_again, rules_tell_trees_and_faults, texts_are_read_or_refused,
    texts_have_one_tree,
};
pub use programs::parse;
