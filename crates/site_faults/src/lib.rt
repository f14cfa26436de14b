//! The faults of the places of a text, and the walk that finds them.
//!
//! A walk goes over a part of the tree and hands each place to one function, which tells what is
//! wrong there. `Findings` keeps the fault that comes first in the text, and the calls.
#![tactic(auto)]

mod calls;
mod findings;
mod forms;
mod nodes;
mod reach;
mod regions;
mod shapes;
mod statements;
mod walk;
mod whole;

pub use calls::tell_call;
pub use findings::{Called, FaultKind, Findings, Found};
pub use forms::{
    tell_assign, tell_block, tell_border, tell_for, tell_if, tell_invoke, tell_loop, tell_return,
    tell_write,
};
pub use name_kinds;
pub use name_kinds::{zpl_names, zpl_nums, zpl_tree};
pub use reach::{CallRole, Reach, Role};
pub use regions::{tell_mask, tell_posts};
pub use statements::{arms_rank, test_rank};
pub use walk::{walk_actuals, walk_dir, walk_posts, walk_region, walk_whole};
pub use whole::tell_whole;
