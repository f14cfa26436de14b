//! The forms of a region, and its part in a box.
ghost use Rattle.std.specs.Prelude.{◌≡◌, ◌≤◌, ◌↔◌, length, IsTrue, OkIff, IfOk, All};
ghost use Rattle.zpl_region.specs.Dim.{HasAlign, HasBounds};
ghost use Rattle.zpl_region.specs.Region.{HasReach, IsRegion, IsWithinLimit, inside_of};
ghost use Rattle.zpl_region.specs.Region.{lies_in_box, members, met, moved, outside_of, strided};

use crate::dims::Dim;
use crate::regions::{Region, RegionLimit, Vec3};

impl Region {
    /// `d of R`: in each dimension the `d` positions beside the bounds. Steps and alignments stay.
    /// A component that is 0, and one past the rank, leaves its dimension as it is.
    pub fn of(&self, d: Vec3) -> Result<Region, RegionLimit>
        requires { IsRegion self.now }
        ensures limit { OkIff result (IsWithinLimit (outside_of d self.now))
            (outside_of d self.now) }
        ensures region { IfOk result IsRegion }
    {
        let [x, y, z] = self.components(d);
        let [planes, rows, columns] = self.dims;
        Region::new(
            self.rank,
            [
                planes.outside_of(x),
                rows.outside_of(y),
                columns.outside_of(z),
            ],
        )
    }

    /// `d in R`: in each dimension the last `d` positions within the bounds, for a negative `d` the
    /// first. Steps and alignments stay. A component that is 0, and one past the rank, leaves its
    /// dimension as it is.
    pub fn inside(&self, d: Vec3) -> Result<Region, RegionLimit>
        requires { IsRegion self.now }
        ensures limit { OkIff result (IsWithinLimit (inside_of d self.now)) (inside_of d self.now) }
        ensures region { IfOk result IsRegion }
    {
        let [x, y, z] = self.components(d);
        let [planes, rows, columns] = self.dims;
        Region::new(
            self.rank,
            [planes.inside_of(x), rows.inside_of(y), columns.inside_of(z)],
        )
    }

    /// `R at d`: bounds and alignments are moved by `d`, whose components past the rank count as 0.
    pub fn at(&self, d: Vec3) -> Result<Region, RegionLimit>
        requires { IsRegion self.now }
        ensures limit { OkIff result (IsWithinLimit (moved d self.now)) (moved d self.now) }
        ensures region { IfOk result IsRegion }
    {
        let [x, y, z] = self.components(d);
        let [planes, rows, columns] = self.dims;
        Region::new(
            self.rank,
            [planes.moved(x), rows.moved(y), columns.moved(z)],
        )
    }

    /// `R by d`: in each dimension every `d`-th coordinate, from the least on, for a negative `d`
    /// from the greatest on. The bounds stay. A component that is 0, and one past the rank, leaves
    /// its dimension as it is.
    pub fn by(&self, d: Vec3) -> Result<Region, RegionLimit>
        requires { IsRegion self.now }
        ensures limit { OkIff result (IsWithinLimit (strided d self.now)) (strided d self.now) }
        ensures region { IfOk result IsRegion }
    {
        let [x, y, z] = self.components(d);
        let [planes, rows, columns] = self.dims;
        Region::new(
            self.rank,
            [planes.strided(x), rows.strided(y), columns.strided(z)],
        )
    }

    /// The region, moved by `d`, whose components past the rank count as 0. It may pass the limits.
    pub fn shift(&self, d: Vec3) -> Region
        requires region { IsRegion self.now }
        requires bounds { All HasBounds (moved d self.now).dims }
        ensures moved { result ≡ moved d self.now }
        ensures region { All HasAlign (moved d self.now).dims → IsRegion result }
        ensures points { length (members result) ≡ length (members self.now) }
    {
        let [x, y, z] = self.components(d);
        let [planes, rows, columns] = self.dims;
        Region {
            rank: self.rank,
            dims: [planes.shifted(x), rows.shifted(y), columns.shifted(z)],
        }
    }

    /// The tuples of the region in the box from `lo` to `hi`. A flood dimension lies in every box,
    /// and components past the rank aren't looked at.
    pub fn meet(&self, lo: Vec3, hi: Vec3) -> Region
        requires { IsRegion self.now }
        ensures met { result ≡ met lo hi self.now }
        ensures region { HasReach lo hi → IsRegion result }
        ensures points { length (members result) ≤ length (members self.now) }
    {
        let [x, y, z] = self.components(lo);
        let [u, v, w] = self.components(hi);
        let [planes, rows, columns] = self.dims;
        Region {
            rank: self.rank,
            dims: [planes.met(x, u), rows.met(y, v), columns.met(z, w)],
        }
    }

    /// Whether all tuples of the region lie in the box from `lo` to `hi`, as those of a region
    /// without tuples do. A flood dimension lies in every box, and components past the rank aren't
    /// looked at.
    pub fn within(&self, lo: Vec3, hi: Vec3) -> bool
        requires { IsRegion self.now }
        ensures { IsTrue result
            ↔ All (λ t. IsTrue (lies_in_box lo hi self.now t)) (members self.now) }
    {
        let [x, y, z] = self.components(lo);
        let [u, v, w] = self.components(hi);
        let [planes, rows, columns] = self.dims;
        self.is_empty() || planes.is_within(x, u) && rows.is_within(y, v) && columns.is_within(z, w)
    }
}
