//! The layout of a program's stored arrays over its grid of processors.
#![tactic(auto)]

mod boxes;
mod grids;
mod layouts;

pub use layouts::{has_room, layout_of};
