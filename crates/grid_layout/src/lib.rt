//! How arrays are laid out over a grid of processors.
//!
//! The dimensions of a rank are cut into blocks. Each tuple has one owner, and each processor
//! holds, of each array, its own block with a fringe around it.
#![tactic(auto)]

mod axes;
mod blocks;
mod boxes;
mod dims;
mod grids;
mod laws;
mod layouts;
mod own;
mod sides;

pub use axes::Axis;
pub use blocks::Blocks;
pub use boxes::ArrayBox;
pub use dims::{components, part, size};
pub use grids::{Grid, GridFault};
pub use laws::{
    each_coordinate_has_one_block, each_tuple_has_one_owner, held_boxes_lie_in_storages,
    laid_out_blocks_are_blocks, owned_parts_go_by_owners, owners_partition_regions,
    pieces_partition_needs,
};
pub use layouts::{Layout, LayoutFault};
pub use zpl_region;
