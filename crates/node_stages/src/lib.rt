//! The stages of rows in which the processors of a grid work together: what a processor does in its
//! next turn of such a row, by the turns that it has made in it.
//!
//! Nothing here takes memory, and no list of stages is made: a stage is found by one walk over
//! processors, in exchanges and borders over those whose blocks can meet. In an exchange the
//! walk can be made beforehand, and what it found kept for later visits.
#![tactic(auto)]

mod boxes;
mod edges;
mod exchanges;
mod found;
mod gathers;
mod kin;
mod known;
mod partners;
mod stages;

pub use boxes::box_number;
pub use edges::{edge_piece, edge_stage};
pub use exchanges::{finish_stage, item_piece, learn_receivers, learn_senders, start_stage};
pub use gathers::{gather_stage, own_tuples};
pub use grid_meaning::{grid_links, node_form};
pub use kin::Kin;
pub use known::Partners;
pub use partners::{MOST, Place, nth, taking_stage};
pub use reduce_plan::region_places;
pub use stages::Stage;
