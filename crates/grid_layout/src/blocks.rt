//! The blocks into which the dimensions of each rank are cut.
ghost use Rattle.std.specs.Prelude.{◌≡◌, ◌<◌, ◌≤◌, ◌-◌, ◌^◌, All, length, min, sum_by};
ghost use Rattle.zpl_region.specs.Dim.{HasBounds, IsUpTo};
ghost use Rattle.zpl_region.specs.Region.{IsRegion};
ghost use Rattle.grid_layout.specs.Grid.{processors_of};
ghost use Rattle.zpl_region.specs.Hull.{IsBoxed};
ghost use Rattle.grid_layout.specs.Layout.{HasWideBounds, AreAxes, AreBlocks, IsArrayBox, IsHull};
ghost use Rattle.grid_layout.specs.Layout.{around, axes_at, axes_of, blocks_of, held_of, hull_in};
ghost use Rattle.grid_layout.specs.Layout.{widened, own_first, own_last, owner_of};
ghost use Rattle.grid_layout.specs.Piece.{owned_part};
ghost use Rattle.grid_layout.specs.Sides.{IsSide, sides_of};
ghost use Rattle.grid_layout.specs.Words.{box_words};

use crate::axes::Axis;
use crate::boxes::ArrayBox;
use crate::dims::tuples;
use crate::grids::{Grid, blocks_at};
use crate::sides::{Side, firsts, held_by, lasts, owned_by};
use zpl_region::{Dim, Region, Vec3};

/// The blocks of a grid, for arrays that are laid out over it.
#[derive(Clone, Copy)]
pub struct Blocks {
    /// The grid of processors.
    pub grid: Grid,
    /// What is shared out in each dimension of rank 1. Dimensions past the rank are one block.
    pub lines: [Axis; 3],
    /// The same of rank 2.
    pub planes: [Axis; 3],
    /// The same of rank 3.
    pub spaces: [Axis; 3],
}

/// The bounds around a hull, or none, and a range.
fn around(hull: Option<(i64, i64)>, dim: Dim) -> Option<(i64, i64)>
    requires hull { IsHull hull }
    requires dim { HasBounds dim }
    ensures around { result ≡ around hull dim }
    ensures sound { IsHull result }
{
    let Dim::Range { lo, hi, .. } = dim else {
        return hull;
    };
    match hull {
        None => Some((lo, hi)),
        Some((low, high)) => Some((low.min(lo), high.max(hi))),
    }
}

/// The bounds around a hull, or none, and a storage, where that has the rank, a tuple and a range
/// in a dimension, counted from 0.
fn widened(rank: u8, place: usize, hull: Option<(i64, i64)>, array: &ArrayBox) -> Option<(i64, i64)>
    requires place { place < 3 }
    requires hull { IsHull hull }
    requires array { IsArrayBox array.now }
    ensures widened { result ≡ widened rank place hull array.now }
    ensures sound { IsHull result }
{
    if array.shape.rank != rank {
        return hull;
    }
    if array.shape.is_empty() {
        return hull;
    }
    around(hull, array.shape.dims[place])
}

/// The bounds around the storages of a rank that have a range in a dimension, counted from 0.
fn hull_in(rank: u8, place: usize, boxes: &[ArrayBox]) -> Option<(i64, i64)>
    requires place { place < 3 }
    requires boxes { All IsArrayBox boxes.now }
    ensures hull { result ≡ hull_in rank place boxes.now }
    ensures sound { IsHull result }
{
    let mut hull = None;
    for array in boxes {
        hull = widened(rank, place, hull, array);
    }
    hull
}

/// What is shared out in each dimension of a rank.
fn axes_of(boxes: &[ArrayBox], rank: u8) -> [Axis; 3]
    requires { All IsArrayBox boxes.now }
    ensures axes { result ≡ axes_of boxes.now rank }
    ensures sound { AreAxes result }
{
    [
        Axis::over(hull_in(rank, 0, boxes)),
        Axis::over(hull_in(rank, 1, boxes)),
        Axis::over(hull_in(rank, 2, boxes)),
    ]
}

impl Blocks {
    /// The blocks for these arrays.
    pub fn new(grid: Grid, boxes: &[ArrayBox]) -> Blocks
        requires { All IsArrayBox boxes.now }
        ensures blocks { result ≡ blocks_of grid boxes.now }
        ensures sound { AreBlocks result }
    {
        Blocks {
            grid,
            lines: axes_of(boxes, 1),
            planes: axes_of(boxes, 2),
            spaces: axes_of(boxes, 3),
        }
    }

    /// What is shared out in each dimension of a rank.
    fn axes_at(&self, rank: u8) -> [Axis; 3]
        requires blocks { AreBlocks self.now }
        requires above { 1 ≤ rank }
        requires below { rank ≤ 3 }
        ensures axes { result ≡ axes_at self.now rank }
        ensures sound { AreAxes result }
    {
        match rank {
            1 => self.lines,
            2 => self.planes,
            _ => self.spaces,
        }
    }

    /// The processor that owns a tuple. Each tuple has one, also one that no storage has.
    pub fn owner(&self, rank: u8, x: Vec3) -> u32
        requires blocks { AreBlocks self.now }
        requires above { 1 ≤ rank }
        requires below { rank ≤ 3 }
        ensures owner { result ≡ owner_of self.now rank x }
        ensures processor { result < processors_of self.now.grid }
    {
        let [planes, rows, columns] = self.axes_at(rank);
        let [m, n, k] = self.grid.cuts(rank);
        let [x, y, z] = x;
        let a = planes.block_of(m, x);
        let b = rows.block_of(n, y);
        let c = columns.block_of(k, z);
        (a * n + b) * k + c
    }

    /// The blocks of a processor in the dimensions of a rank.
    pub(crate) fn sides(&self, rank: u8, p: u32) -> [Side; 3]
        requires blocks { AreBlocks self.now }
        requires above { 1 ≤ rank }
        requires below { rank ≤ 3 }
        requires processor { p < processors_of self.now.grid }
        ensures sides { result ≡ sides_of self.now rank p }
        ensures bounds { All IsSide result }
    {
        let [planes, rows, columns] = self.axes_at(rank);
        let cuts = self.grid.cuts(rank);
        let [m, n, k] = cuts;
        let [a, b, c] = blocks_at(&cuts, p);
        [planes.side(m, a), rows.side(n, b), columns.side(k, c)]
    }

    /// The first and the last tuple of a processor's own block; -2^40 and 2^40 where it is without
    /// end. A block that is empty in a dimension begins one behind its end there.
    pub fn own_block(&self, rank: u8, p: u32) -> (Vec3, Vec3)
        requires blocks { AreBlocks self.now }
        requires above { 1 ≤ rank }
        requires below { rank ≤ 3 }
        requires processor { p < processors_of self.now.grid }
        ensures first { result.0 ≡ own_first self.now rank p }
        ensures last { result.1 ≡ own_last self.now rank p }
        ensures first_bounds { All (IsUpTo 41) result.0 }
        ensures last_bounds { All (IsUpTo 41) result.1 }
    {
        let sides = self.sides(rank, p);
        (firsts(&sides), lasts(&sides))
    }

    /// The box of an array that a processor holds: its own block, widened by the fringe, within the
    /// storage. An empty block holds nothing; then each range is `1..0`.
    pub fn held(&self, array: &ArrayBox, p: u32) -> Region
        requires blocks { AreBlocks self.now }
        requires array { IsArrayBox array.now }
        requires processor { p < processors_of self.now.grid }
        ensures held { result ≡ held_of self.now array.now p }
        ensures boxed { All IsBoxed result.dims }
        ensures bounds { All HasWideBounds result.dims }
        ensures region { IsRegion result }
    {
        let sides = self.sides(array.shape.rank, p);
        held_by(&sides, array)
    }

    /// The part of a region that processor `from` owns, for a receiver. In a flood dimension it is
    /// the part of the processors with the receiver's block.
    pub fn owned(&self, from: u32, to: u32, region: &Region) -> Region
        requires blocks { AreBlocks self.now }
        requires above { 1 ≤ region.now.rank }
        requires below { region.now.rank ≤ 3 }
        requires owner { from < processors_of self.now.grid }
        requires receiver { to < processors_of self.now.grid }
        ensures owned { result ≡ owned_part self.now from to region.now }
        ensures region { IsRegion region.now → IsRegion result }
    {
        let sides = self.sides(region.rank, from);
        let others = self.sides(region.rank, to);
        owned_by(&sides, &others, region)
    }

    /// How many words the held boxes of an array have on all processors, or 2^128 - 1 where they
    /// are more.
    pub fn words(&self, array: &ArrayBox) -> u128
        requires blocks { AreBlocks self.now }
        requires array { IsArrayBox array.now }
        ensures { result ≡ min (box_words self.now array.now) (2 ^ 128 - 1) }
    {
        let mut words: u128 = 0;
        for p in 0..self.grid.count() {
            words = words.saturating_add(tuples(&self.held(array, p).dims));
        }
        words
    }

    /// How many words the held boxes of several arrays have on all processors, or 2^128 - 1 where
    /// they are more.
    pub fn words_of(&self, boxes: &[ArrayBox]) -> u128
        requires blocks { AreBlocks self.now }
        requires boxes { All IsArrayBox boxes.now }
        ensures { result ≡ min (sum_by (box_words self.now) boxes.now) (2 ^ 128 - 1) }
    {
        let mut words: u128 = 0;
        for array in boxes {
            words = words.saturating_add(self.words(array));
        }
        words
    }
}
