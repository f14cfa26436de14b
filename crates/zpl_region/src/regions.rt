//! Regions, how many tuples they have, and how they compare.
ghost use Rattle.std.specs.Prelude.{◌≡◌, ◌≤◌, ◌<◌, ◌^◌, ◌-◌, ◌↔◌, IsTrue, OkIff, IfOk, All, []};
ghost use Rattle.std.specs.Prelude.{map, length, min};
ghost use Rattle.zpl_region.specs.Dim.{HasStep, IsSameSet, coordinates};
ghost use Rattle.zpl_region.specs.Progression.{IsNormal, terms};
ghost use Rattle.zpl_region.specs.Region.{IsPadded, IsRegion, IsWithinLimit, components, dim_at};
ghost use Rattle.zpl_region.specs.Region.{members};

use crate::dims::Dim;
use crate::progressions::Progression;

/// The most tuples that a region may have.
const POINT_LIMIT: u64 = 4_194_304;

/// A tuple of a region, or a vector: one component for each dimension, 0 past the rank.
pub type Vec3 = [i64; 3];

/// A region of rank 1 to 3: the tuples of one coordinate of each dimension, in row-major order.
/// Dimensions past the rank are `Range { lo: 0, hi: 0, step: 1, align: 0 }`.
#[derive(Clone, Copy, Debug, PartialEq, Eq)]
pub struct Region {
    pub rank: u8,
    pub dims: [Dim; 3],
}

/// A region has a bound below -2^31 or above 2^31, a step above 2^31, an alignment below -2^40 or
/// above 2^40, or more than 4,194,304 tuples.
#[derive(Clone, Copy, Debug, PartialEq, Eq)]
pub struct RegionLimit;

impl Region {
    /// The region of these dimensions, unless it passes the limits.
    pub fn new(rank: u8, dims: [Dim; 3]) -> Result<Region, RegionLimit>
        requires above { 1 ≤ rank }
        requires below { rank ≤ 3 }
        requires steps { All HasStep dims }
        requires padded { IsPadded rank dims }
        ensures limit { OkIff result (IsWithinLimit (record { rank = rank; dims = dims }))
            (record { rank = rank; dims = dims }) }
        ensures region { IfOk result IsRegion }
    {
        let [planes, rows, columns] = dims;
        Region {
            rank,
            dims: [planes.limited()?, rows.limited()?, columns.limited()?],
        }
        .limited()
    }

    /// The region, unless it has too many tuples.
    pub(crate) fn limited(self) -> Result<Region, RegionLimit>
        requires { IsRegion self }
        ensures { OkIff result (length (members self) ≤ 4194304) self }
    {
        if self.points() <= POINT_LIMIT {
            Ok(self)
        } else {
            Err(RegionLimit)
        }
    }

    /// How many tuples the region has.
    pub fn count(&self) -> u64
        requires region { IsRegion self.now }
        requires fits { length (members self.now) < 2 ^ 64 }
        ensures { result ≡ length (members self.now) }
    {
        self.points()
    }

    /// How many tuples the region has, or the greatest number where they are more.
    fn points(&self) -> u64
        requires { IsRegion self.now }
        ensures { result ≡ min (length (members self.now)) (2 ^ 64 - 1) }
    {
        let [planes, rows, columns] = self.progressions();
        planes
            .count
            .saturating_mul(rows.count)
            .saturating_mul(columns.count)
    }

    /// Whether the region has no tuple.
    pub fn is_empty(&self) -> bool
        requires { IsRegion self.now }
        ensures { IsTrue result ↔ (members self.now ≡ []) }
    {
        self.points() == 0
    }

    /// The coordinates of each dimension.
    pub(crate) fn progressions(&self) -> [Progression; 3]
        requires { IsRegion self.now }
        ensures normal { All IsNormal result }
        ensures terms { map terms result ≡ map coordinates self.now.dims }
    {
        let [planes, rows, columns] = self.dims;
        [
            planes.progression(),
            rows.progression(),
            columns.progression(),
        ]
    }

    /// The components of a vector up to the rank, and 0 past it.
    pub fn components(&self, v: Vec3) -> Vec3
        requires { IsRegion self.now }
        ensures { result ≡ components self.now.rank v }
    {
        let [x, y, z] = v;
        [
            x,
            if self.rank > 1 { y } else { 0 },
            if self.rank > 2 { z } else { 0 },
        ]
    }

    /// Whether the `k`-th dimensions of two regions are the same set, `k` counted from 1. A flood
    /// dimension is only the same as another flood dimension.
    pub fn same_dim(&self, other: &Region, k: u8) -> bool
        requires mine { IsRegion self.now }
        requires theirs { IsRegion other.now }
        requires ranks { self.now.rank ≡ other.now.rank }
        requires above { 1 ≤ k }
        requires below { k ≤ self.now.rank }
        ensures { IsTrue result ↔ IsSameSet (dim_at self.now k) (dim_at other.now k) }
    {
        let place = usize::from(k) - 1;
        self.dims[place].is_same(other.dims[place])
    }
}
