//! A program as a tree: the types of its nodes, which lie in an arena, and the printer.
#![tactic(auto)]

mod declarations;
mod expressions;
mod laws;
mod names;
mod placing;
mod printing;
mod regions;
mod statements;

pub use declarations::{Base, Decl, Define, DirDef, Param, Procedure, Program, RegionDef, VarDef};
pub use expressions::{Expr, ExprForm};
pub use laws::{nodes_are_seen_with_their_lists, printed_words_are_a_spelling};
pub use names::Name;
pub use placing::{place_expr, place_list, place_procedure, place_program};
pub use printing::print_tree;
pub use regions::{DimText, Dir, Inner, Post, Pre, RegionBase, Rexpr};
pub use statements::{Arm, ForHead, Form, Item, Mask, Prefix, Stmt};
