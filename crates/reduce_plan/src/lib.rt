//! How partial reductions and joins over all processors are shared out over a grid.
//!
//! A partial reduction is computed from partial folds: each processor folds, for each index of the
//! target that its block of the source reaches, the values there, and the owner of the index joins
//! what it is sent. Votes and folds of scalars go over a tree of the processors.
#![tactic(auto)]

mod folds;
mod laws;
mod tree;

pub use folds::partials;
pub use grid_layout::zpl_region;
pub use laws::{
    partial_folds_are_reductions_over_the_block, partial_folds_join_to_the_fold,
    partial_folds_of_all_processors_join_to_the_fold,
};
pub use region_places;
pub use region_places::zpl_nums;
pub use tree::{children, parent, processors_are_a_tree};
