//! Regions: the index sets of the language, computed by arithmetic.
//!
//! A dimension is a stepped range or flood, and a region is the row-major list of the tuples that
//! its one to three dimensions give. No call takes memory, and none builds the list.
#![tactic(auto)]

mod dims;
mod forms;
mod hulls;
mod laws;
mod progressions;
mod regions;
mod walks;

pub use dims::Dim;
pub use laws::{
    blocks_partition_members, blocks_partition_members_by_dimension, coordinates_are_the_set,
    ends_are_those_of_the_lists, hull_is_the_least_box, hull_of_two_is_the_least_box,
    limited_regions_are_regions, meeting_keeps_members_in_order, members_are_in_row_major_order,
    members_are_tuples_of_coordinates, moving_moves_each_member, next_member_is_the_one_after,
    parts_partition_members, same_sets_have_one_normal_form, tests_tell_the_facts,
};
pub use regions::{Region, RegionLimit, Vec3};
