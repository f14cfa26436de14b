//! The first and the last tuple of a region, and the least box around its tuples.
ghost use Rattle.std.specs.Prelude.{◌≡◌, ◌≤◌, ◌↔◌, IsTrue};
ghost use Rattle.zpl_region.specs.Ends.{greatest_member, least_member, single_of};
ghost use Rattle.zpl_region.specs.Hull.{AreAlike, emptied, hull, hull_with};
ghost use Rattle.zpl_region.specs.Region.{IsMember, IsRegion, dim_at};

use crate::dims::Dim;
use crate::regions::{Region, Vec3};

impl Region {
    /// Whether `x` is a tuple of the region. The coordinate of a flood dimension is 0, and so is
    /// each component past the rank.
    pub fn contains(&self, x: Vec3) -> bool
        requires { IsRegion self.now }
        ensures { IsTrue result ↔ IsMember self.now x }
    {
        let [planes, rows, columns] = self.progressions();
        let [plane, row, column] = x;
        planes.contains(plane) && rows.contains(row) && columns.contains(column)
    }

    /// The coordinate of the `k`-th dimension, `k` counted from 1, where it is a range with just
    /// one.
    pub fn single(&self, k: u8) -> Option<i64>
        requires region { IsRegion self.now }
        requires above { 1 ≤ k }
        requires below { k ≤ self.now.rank }
        ensures { result ≡ single_of (dim_at self.now k) }
    {
        self.dims[usize::from(k) - 1].single()
    }

    /// The first tuple in row-major order, or `None` where there is none. Its components are the
    /// least coordinates.
    pub fn least(&self) -> Option<Vec3>
        requires { IsRegion self.now }
        ensures { result ≡ least_member self.now }
    {
        if self.is_empty() {
            return None;
        }
        let [planes, rows, columns] = self.dims;
        Some([planes.ends().0, rows.ends().0, columns.ends().0])
    }

    /// The last tuple in row-major order, or `None` where there is none. Its components are the
    /// greatest coordinates.
    pub fn greatest(&self) -> Option<Vec3>
        requires { IsRegion self.now }
        ensures { result ≡ greatest_member self.now }
    {
        if self.is_empty() {
            return None;
        }
        let [planes, rows, columns] = self.dims;
        Some([planes.ends().1, rows.ends().1, columns.ends().1])
    }

    /// The least box around the tuples of the region: ranges of step 1, aligned with their lower
    /// bounds. A flood dimension stays flood. Without tuples each range is `1..0`.
    pub fn hull(&self) -> Region
        requires { IsRegion self.now }
        ensures hull { result ≡ hull self.now }
        ensures region { IsRegion result }
    {
        if self.is_empty() {
            return self.emptied();
        }
        let [planes, rows, columns] = self.dims;
        Region {
            rank: self.rank,
            dims: [planes.hull(), rows.hull(), columns.hull()],
        }
    }

    /// A box without tuples, with the same flood dimensions.
    fn emptied(&self) -> Region
        requires { IsRegion self.now }
        ensures { result ≡ record self.now { dims = emptied self.now.rank self.now.dims } }
    {
        let [planes, rows, columns] = self.dims;
        Region {
            rank: self.rank,
            dims: [
                planes.emptied(),
                if self.rank > 1 { rows.emptied() } else { rows },
                if self.rank > 2 {
                    columns.emptied()
                } else {
                    columns
                },
            ],
        }
    }

    /// The least box around the tuples of both regions, which have the same flood dimensions.
    pub fn hull_with(&self, other: &Region) -> Region
        requires { AreAlike self.now other.now }
        ensures hull { result ≡ hull_with self.now other.now }
        ensures region { IsRegion result }
    {
        if other.is_empty() {
            return self.hull();
        }
        if self.is_empty() {
            return other.hull();
        }
        let [planes, rows, columns] = self.dims;
        let [more_planes, more_rows, more_columns] = other.dims;
        Region {
            rank: self.rank,
            dims: [
                planes.hull_with(more_planes),
                rows.hull_with(more_rows),
                columns.hull_with(more_columns),
            ],
        }
    }
}
