//! Which indices of a border or a flood a processor sets from values that another one owns.
//!
//! A piece is again a region: for `wrap` a block moved by an extent, for `reflect` a mirrored one.
//! No call takes memory or walks over indices.
#![tactic(auto)]

mod borders;
mod floods;
mod laws;

pub use borders::border_piece;
pub use floods::{flood_piece, flood_source};
pub use grid_layout;
pub use laws::{border_pieces_go_by_sources, flood_pieces_go_by_sources};
pub use zpl_arrays;
pub use zpl_arrays::{zpl_nums, zpl_region};
