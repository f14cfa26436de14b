//! Lines of a region, their first tuples and their numbers.
ghost use Rattle.std.specs.Prelude.{◌≡◌, ◌+◌, ◌-◌, ◌*◌, ◌<◌, ◌≤◌, ◌^◌, drop, length, option_map};
ghost use Rattle.std.specs.Prelude.{slice_index_or};
ghost use Rattle.zpl_region.specs.declared.dims.Dim.{Dim as Dimension};
ghost use Rattle.zpl_region.specs.Dim.{IsDim};
ghost use Rattle.zpl_region.specs.Ends.{coordinate_count, tuple_count};
ghost use Rattle.zpl_region.specs.Hull.{all_from};
ghost use Rattle.zpl_region.specs.Region.{IsRegion, members};
ghost use Rattle.scan_plan.specs.Line.{first_alone, heads, line_dim, line_number};

use region_places::size;
use zpl_region::{Dim, Region};

/// What stands for a dimension past the rank.
const PADDING: Dim = Dim::Range {
    lo: 0,
    hi: 0,
    step: 1,
    align: 0,
};

/// The dimension along which lines run, counted from 0.
pub(crate) fn line_dim(rank: u8, along: u8) -> u8
    requires rank { 1 ≤ rank }
    ensures { result ≡ line_dim rank along }
{
    if along == 0 { rank - 1 } else { along - 1 }
}

/// The dimension with its first coordinate alone, if it has one.
fn first_alone(dim: Dim) -> Dim
    requires { IsDim dim }
    ensures alone { result ≡ first_alone dim }
    ensures dim { IsDim result }
{
    let Dim::Range { .. } = dim else {
        return dim;
    };
    let line = Region {
        rank: 1,
        dims: [dim, PADDING, PADDING],
    };
    match line.least() {
        Some(least) => Dim::Range {
            lo: least[0],
            hi: least[0],
            step: 1,
            align: least[0],
        },
        None => dim,
    }
}

/// The first tuples of the lines along a dimension, counted from 0.
pub(crate) fn heads(region: &Region, k: u8) -> Region
    requires region { IsRegion region.now }
    requires dim { k < 3 }
    ensures heads { result ≡ heads k region.now }
    ensures region { IsRegion result }
    ensures dims { length result.dims ≡ 3 }
{
    let [planes, rows, columns] = region.dims;
    let dims = match k {
        0 => [first_alone(planes), rows, columns],
        1 => [planes, first_alone(rows), columns],
        _ => [planes, rows, first_alone(columns)],
    };
    Region {
        rank: region.rank,
        dims,
    }
}

/// How the places of a region lie on lines.
#[derive(Clone, Copy)]
pub(crate) struct Lines {
    /// How many tuples a line has.
    pub along: u64,
    /// How many places there are from one tuple of a line to the next.
    pub inner: u64,
}

impl Lines {
    /// The lines along a dimension, counted from 0.
    pub fn of(region: &Region, k: u8) -> Lines
        requires region { IsRegion region.now }
        requires dim { k < 3 }
        requires some { 0 < length (members region.now) }
        requires fits { length (members region.now) < 2 ^ 64 }
        ensures along { result.along
            ≡ coordinate_count (slice_index_or region.now.dims k Dimension.Flood) }
        ensures inner { result.inner ≡ tuple_count (drop (k + 1) region.now.dims) }
        ensures dims { length region.now.dims ≡ 3 }
    {
        let [planes, rows, columns] = region.dims;
        match k {
            0 => Lines {
                along: size(planes),
                inner: size(rows) * size(columns),
            },
            1 => Lines {
                along: size(rows),
                inner: size(columns),
            },
            _ => Lines {
                along: size(columns),
                inner: 1,
            },
        }
    }

    /// The number of the line of the tuple at a place.
    pub fn number(self, place: u64) -> u64
        requires along { 0 < self.along }
        requires inner { 0 < self.inner }
        requires fits { self.along * self.inner < 2 ^ 64 }
        ensures number { result ≡ line_number self.along self.inner place }
        ensures small { result ≤ place }
    {
        place / (self.along * self.inner) * self.inner + place % self.inner
    }
}
