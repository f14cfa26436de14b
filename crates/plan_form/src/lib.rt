//! Plans: programs for all processors of a grid, which say what is exchanged and where all agree.
//!
//! A pass on plans writes new rows into a [`PlanDraft`], one old row after another, and
//! [`PlanDraft::into_plan`] makes the plan of them. The items of an exchange, each once, are an
//! [`ItemSet`].
#![tactic(auto)]

mod draft;
mod goals;
mod items;
mod lists;

pub use draft::PlanDraft;
pub use flat_passes;
pub use flat_passes::node_form;
pub use goals::goals_of;
pub use items::ItemSet;
pub use lists::{items_of, members_of, words_of};
