//! The blocks of one dimension.
ghost use Rattle.std.specs.Prelude.{◌≡◌, ◌≤◌, ◌<◌, ◌↔◌, IsTrue};
ghost use Rattle.zpl_region.specs.Dim.{IsUpTo};
ghost use Rattle.grid_layout.specs.Block.{block_first, block_last, block_of, block_start};
ghost use Rattle.grid_layout.specs.Block.{is_block_empty};
ghost use Rattle.grid_layout.specs.Layout.{IsAxis, IsHull, axis_over};
ghost use Rattle.grid_layout.specs.Sides.{IsSide, side_of};

use crate::sides::Side;

/// The greatest size of a coordinate; a block without end has it as its bound.
const FURTHEST: i64 = 1 << 40;

/// The coordinates of a dimension that are shared out over its blocks.
#[derive(Clone, Copy)]
pub struct Axis {
    /// The least of them.
    pub low: i64,
    /// How many there are.
    pub extent: u64,
}

impl Axis {
    /// Where block `c` of so many begins.
    fn block_start(self, count: u32, c: u32) -> i64
        requires axis { IsAxis self }
        requires some { 1 ≤ count }
        requires few { count ≤ 64 }
        requires block { c ≤ count }
        ensures start { result ≡ block_start self count c }
        ensures bounds { IsUpTo 41 result }
    {
        self.low + (u64::from(c) * self.extent / u64::from(count)) as i64
    }

    /// The block that owns `x`, of so many: the greatest that begins at most there, or block 0.
    pub fn block_of(self, count: u32, x: i64) -> u32
        requires axis { IsAxis self }
        requires some { 1 ≤ count }
        requires few { count ≤ 64 }
        ensures owner { result ≡ block_of self count x }
        ensures below { result < count }
    {
        if x < self.low {
            return 0;
        }
        let beyond = x.abs_diff(self.low);
        if beyond >= self.extent {
            return count - 1;
        }
        let count = u64::from(count);
        (((beyond + 1) * count - 1) / self.extent) as u32
    }

    /// The first coordinate of block `c` of so many; -2^40 for block 0, which is without end.
    pub fn block_first(self, count: u32, c: u32) -> i64
        requires axis { IsAxis self }
        requires few { count ≤ 64 }
        requires block { c < count }
        ensures first { result ≡ block_first self count c }
        ensures bounds { IsUpTo 41 result }
    {
        if c == 0 {
            return -FURTHEST;
        }
        self.block_start(count, c)
    }

    /// The last coordinate of block `c` of so many; 2^40 for the last block, which is without end.
    pub fn block_last(self, count: u32, c: u32) -> i64
        requires axis { IsAxis self }
        requires few { count ≤ 64 }
        requires block { c < count }
        ensures last { result ≡ block_last self count c }
        ensures bounds { IsUpTo 41 result }
    {
        if c + 1 == count {
            return FURTHEST;
        }
        self.block_start(count, c + 1) - 1
    }

    /// Whether block `c` of so many has no coordinate. The outermost ones always have some.
    pub fn is_block_empty(self, count: u32, c: u32) -> bool
        requires axis { IsAxis self }
        requires few { count ≤ 64 }
        requires block { c < count }
        ensures { result ≡ is_block_empty self count c }
    {
        c > 0 && c + 1 < count && self.block_start(count, c) == self.block_start(count, c + 1)
    }

    /// The coordinates between two bounds; none where there are no bounds.
    pub(crate) fn over(hull: Option<(i64, i64)>) -> Axis
        requires { IsHull hull }
        ensures axis { result ≡ axis_over hull }
        ensures sound { IsAxis result }
    {
        let Some((low, high)) = hull else {
            return Axis { low: 0, extent: 0 };
        };
        let extent = if high < low {
            0
        } else {
            high.abs_diff(low) + 1
        };
        Axis { low, extent }
    }

    /// Block `c` of so many.
    pub(crate) fn side(self, count: u32, c: u32) -> Side
        requires axis { IsAxis self }
        requires few { count ≤ 64 }
        requires block { c < count }
        ensures side { result ≡ side_of self count c }
        ensures bounds { IsSide result }
    {
        Side {
            block: c,
            first: self.block_first(count, c),
            last: self.block_last(count, c),
            is_empty: self.is_block_empty(count, c),
        }
    }
}
