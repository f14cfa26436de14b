//! What the members of a group do at one index, seen as a tree, with a bound on the turns of each
//! loop; and what the turns of a processor have to do with it.
//!
//! The definitions stand in `specs/`. The functions here do nothing: each has a law of the
//! definitions as its contract, and a call brings the law into a proof.
#![tactic(auto)]

mod laws;

pub use laws::{
    like_trees_do_alike, members_are_read_as_trees, members_come_to_the_same, more_turns_go_on,
    trees_do_both, trees_do_their_units,
};
