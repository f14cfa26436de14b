//! Walks over the tuples of a region.
ghost use Rattle.std.specs.Prelude.{◌≡◌, ◌<◌, ◌^◌, [], ◌∷◌, find, length, option_map, slice_get};
ghost use Rattle.zpl_region.specs.Progression.{IsNormal, terms};
ghost use Rattle.zpl_region.specs.Region.{IsRegion, is_before, members, tuples};

use crate::progressions::Progression;
use crate::regions::{Region, Vec3};

impl Region {
    /// The tuple at place `i` in row-major order, counted from 0, or `None` from the count on.
    pub fn nth(&self, i: u64) -> Option<Vec3>
        requires region { IsRegion self.now }
        requires fits { length (members self.now) < 2 ^ 64 }
        ensures { result ≡ slice_get (members self.now) i }
    {
        if self.count() <= i {
            return None;
        }
        let [planes, rows, columns] = self.progressions();
        let line = i / columns.count;
        Some([
            planes.at(line / rows.count),
            rows.at(line % rows.count),
            columns.at(i % columns.count),
        ])
    }

    /// The first tuple that stands after `x` in row-major order, or `None` where none does. The
    /// vector `x` may be no tuple of the region.
    pub fn next_after(&self, x: Vec3) -> Option<Vec3>
        requires { IsRegion self.now }
        ensures { result ≡ find (is_before x) (members self.now) }
    {
        let [planes, rows, columns] = self.progressions();
        let [plane, row, column] = x;
        let here = if planes.contains(plane) {
            next_in_plane(rows, columns, row, column)
        } else {
            None
        };
        match here {
            Some((row, column)) => Some([plane, row, column]),
            None => Some([planes.above(plane)?, rows.least()?, columns.least()?]),
        }
    }
}

/// The first pair of coordinates that stands after `(row, column)`.
fn next_in_plane(
    rows: Progression,
    columns: Progression,
    row: i64,
    column: i64,
) -> Option<(i64, i64)>
    requires rows { IsNormal rows }
    requires columns { IsNormal columns }
    ensures { option_map (λ t. t.0 ∷ t.1 ∷ []) result
        ≡ find (is_before (row ∷ column ∷ [])) (tuples (terms rows ∷ terms columns ∷ [])) }
{
    let here = if rows.contains(row) {
        columns.above(column)
    } else {
        None
    };
    match here {
        Some(column) => Some((row, column)),
        None => Some((rows.above(row)?, columns.least()?)),
    }
}
