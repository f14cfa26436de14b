//! What a grid of processors does: one turn of a processor, the grid after an order of turns, and
//! what it shows.
//!
//! The definitions stand in `specs/`; what runs is elsewhere. The functions here do nothing: each
//! has a law of the definitions as its contract, and a call brings the law into a proof.
#![tactic(auto)]

mod every_order;
mod laws;
mod partners;
mod processors;
mod scalar;
mod states;

pub use every_order::{orders_are_dominated, orders_end_alike, small_links_are_enough};
pub use grid_layout;
pub use grid_layout::zpl_region;
pub use grid_links;
pub use laws::{
    given_turns_are_orders, grids_show_their_worlds, orders_go_on, over_stays, printing_grows,
    turns_count,
};
pub use node_form;
pub use node_form::zpl_nums;
pub use partners::partners_are_processors;
pub use processors::Processors;
pub use scalar::{scalar_code_goes_on, scalar_code_needs_no_links};
pub use states::states_are_kept;
