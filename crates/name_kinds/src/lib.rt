//! What names stand for, and the ranks, shapes and types of what is written with them.
#![tactic(auto)]

mod kinds;
mod names;
mod parts;
mod places;
mod ranks;
mod regions;
mod scope;
mod shapes;

pub use kinds::{BaseType, Formal, Kind, Signature};
pub use names::{Known, Names};
pub use parts::{Part, Parts, part_of, parts_of, reduced_rank};
pub use places::{
    array_rank, array_shape, direction_rank, is_array, is_direction, is_fixed, is_procedure,
    is_region, is_scalar, is_value, kind_base, region_shape, result_base, shape_rank, value_rank,
};
pub use ranks::{
    Rank, both_ranks, first_rank, is_above_zero, is_past, is_zero, known_rank, lacks_rank,
    placed_rank, ranks_clash, small_rank,
};
pub use regions::{
    declared_shape, dir_rank, ditto_rank, inner_rank, inner_shape, is_index, variable_kind,
};
pub use scope::Scope;
pub use shapes::{Current, Shape, Shapes};
pub use zpl_names;
pub use zpl_nums;
pub use zpl_tree;
