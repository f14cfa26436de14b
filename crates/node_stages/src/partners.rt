//! Partners that are told by flags, one for each processor.
ghost use Rattle.std.specs.Prelude.{◌≡◌, ◌+◌, ◌<◌, ◌≤◌, length, slice_get, Some};
ghost use Rattle.node_stages.specs.Place.{IsNth};
ghost use Rattle.node_stages.specs.Partners.{flagged, taking};
ghost use Rattle.node_stages.specs.Stage.{staged};

use crate::stages::Stage;

/// The most processors that a grid has.
pub const MOST: usize = 64;

/// A processor by its place among those whose flags are set.
#[derive(Clone, Copy)]
pub enum Place {
    /// That processor.
    There(u32),
    /// There are fewer, and the place lies so far behind the last of them.
    Behind(u64),
}

/// The processor at a place among those whose flags are set, of so many processors.
pub fn nth(flags: &[bool; MOST], count: u32, place: u64) -> Place
    requires { count ≤ 64 }
    ensures { IsNth (flagged flags.now count) place result }
{
    let mut left = place;
    for q in 0..count {
        if flags[q as usize] {
            if left == 0 {
                return Place::There(q);
            }
            left -= 1;
        }
    }
    Place::Behind(left)
}

/// The stage at a place of a row that takes a message from each of those whose flags are set.
pub fn taking_stage(takes: &[bool; MOST], count: u32, place: u64) -> Stage
    requires few { count ≤ 64 }
    requires there { place < length (taking (flagged takes.now count)) }
    ensures { slice_get (taking (flagged takes.now count)) place ≡ Some (staged result) }
{
    match nth(takes, count, place) {
        Place::There(q) => Stage::TakesFrom(q),
        Place::Behind(_) => Stage::Last,
    }
}
