//! Layouts: the blocks of a grid with the arrays that are laid out over it.
ghost use Rattle.std.specs.Prelude.{◌≡◌, ◌<◌, ◌≤◌, ◌≢◌, All, IfErr, IfOk, IsPermutation, flat_map};
ghost use Rattle.std.specs.Prelude.{length, nat_lt};
ghost use Rattle.grid_layout.specs.declared.layouts.LayoutFault.TheVariants.{NoMemory};
ghost use Rattle.grid_layout.specs.Grid.{processors_of};
ghost use Rattle.grid_layout.specs.Layout.{AreBlocks, IsArrayBox, box_at, held_box_of, laid_out};
ghost use Rattle.grid_layout.specs.Layout.{own_first, own_last, owner_of};
ghost use Rattle.grid_layout.specs.Piece.{needed_of, owned_part, piece_of};
ghost use Rattle.grid_layout.specs.Sides.{IsSide, sides_of};
ghost use Rattle.grid_layout.specs.Words.{processors, words_of};
ghost use Rattle.zpl_region.specs.Dim.{HasAlign, HasBounds, IsUpTo};
ghost use Rattle.zpl_region.specs.Hull.{IsBoxed};
ghost use Rattle.zpl_region.specs.Region.{IsRegion, members, moved};

use crate::blocks::Blocks;
use crate::boxes::ArrayBox;
use crate::dims::has_tuples;
use crate::grids::Grid;
use crate::own::{OwnBlocks, all_own};
use crate::sides::{Side, firsts, held_by, lasts, needed_by, owned_by, places_by};
use std::alloc::Global;
use std::marker::Model;
use zpl_region::{Region, Vec3};

/// The most words that the held boxes of a layout may have, on all processors together.
const STORAGE_LIMIT: u128 = 16_777_216;

/// Stored arrays, laid out over a grid. Contracts see its grid and its arrays.
#[derive(Drop)]
pub struct Layout {
    blocks: Blocks,
    boxes: Vec<ArrayBox>,
    own: Vec<OwnBlocks>,
}

impl Model for Layout {
    ghost use Rattle.grid_layout.specs.Layout.{Arrangement};
    ghost use Rattle.grid_layout.specs.Own.{IsKept};

    ghost Value = { Arrangement };

    ghost view = { λ l. record { grid = l.blocks.grid; boxes = l.boxes.items } };

    ghost invariant = { λ l. IsKept l.blocks l.boxes.items l.own.items };
}

/// Why there is no layout.
#[derive(Clone, Copy, Debug, PartialEq, Eq)]
pub enum LayoutFault {
    /// The held boxes have more than 16,777,216 words, on all processors together.
    TooMuchStorage,
    /// There is no memory for the list of arrays, or for that of own blocks.
    NoMemory,
}

impl Layout {
    /// The layout of these arrays.
    pub fn new(alloc: Global, grid: Grid, boxes: &[ArrayBox]) -> Result<Layout, LayoutFault>
        requires { All IsArrayBox boxes.now }
        ensures layout { IfOk result (λ layout. layout
            ≡ record { grid = grid; boxes = boxes.now }) }
        ensures fits { IfOk result (λ layout. words_of layout ≤ 16777216) }
        ensures storage { IfErr result (λ fault. fault ≢ NoMemory
            → 16777216 < words_of (record { grid = grid; boxes = boxes.now })) }
    {
        let blocks = Blocks::new(grid, boxes);
        if blocks.words_of(boxes) > STORAGE_LIMIT {
            return Err(LayoutFault::TooMuchStorage);
        }
        let Ok(boxes) = boxes.to_vec(alloc) else {
            return Err(LayoutFault::NoMemory);
        };
        let Ok(own) = all_own(alloc, &blocks) else {
            return Err(LayoutFault::NoMemory);
        };
        Ok(Layout { blocks, boxes, own })
    }

    /// The blocks of the layout.
    pub fn blocks(&self) -> &Blocks
        ensures blocks { result.now ≡ laid_out self.now }
        ensures sound { AreBlocks result.now }
        ensures boxes { All IsArrayBox self.now.boxes }
    {
        let _boxes = &self.boxes;
        let _own = &self.own;
        &self.blocks
    }

    /// The grid that the layout was made with.
    pub fn grid(&self) -> Grid
        ensures { result ≡ self.now.grid }
    {
        self.blocks.grid
    }

    /// A stored array, where it stands.
    #[inline(always)]
    fn stored(&self, array: u32) -> &ArrayBox
        requires { array < length self.now.boxes }
        ensures same { result.now ≡ box_at self.now array }
        ensures sound { IsArrayBox result.now }
        ensures boxes { All IsArrayBox self.now.boxes }
    {
        let _blocks = &self.blocks;
        let _own = &self.own;
        &self.boxes[array as usize]
    }

    /// A stored array.
    pub fn array_box(&self, array: u32) -> ArrayBox
        requires { array < length self.now.boxes }
        ensures same { result ≡ box_at self.now array }
        ensures sound { IsArrayBox result }
        ensures boxes { All IsArrayBox self.now.boxes }
    {
        *self.stored(array)
    }

    /// The processor that owns a tuple. Each tuple has one, also one that no storage has.
    pub fn owner(&self, rank: u8, x: Vec3) -> u32
        requires above { 1 ≤ rank }
        requires below { rank ≤ 3 }
        ensures owner { result ≡ owner_of (laid_out self.now) rank x }
        ensures processor { result < processors_of self.now.grid }
    {
        self.blocks().owner(rank, x)
    }

    /// The blocks of a processor in the dimensions of a rank.
    #[inline(always)]
    fn sides(&self, rank: u8, p: u32) -> &[Side; 3]
        requires above { 1 ≤ rank }
        requires below { rank ≤ 3 }
        requires processor { p < processors_of self.now.grid }
        ensures sides { result.now ≡ sides_of (laid_out self.now) rank p }
        ensures bounds { All IsSide result.now }
        ensures blocks { AreBlocks (laid_out self.now) }
    {
        let _blocks = &self.blocks;
        let _boxes = &self.boxes;
        self.own[p as usize].of_rank(rank)
    }

    /// The first and the last tuple of a processor's own block; -2^40 and 2^40 where it is without
    /// end. A block that is empty in a dimension begins one behind its end there.
    #[inline(always)]
    pub fn own_block(&self, rank: u8, p: u32) -> (Vec3, Vec3)
        requires above { 1 ≤ rank }
        requires below { rank ≤ 3 }
        requires processor { p < processors_of self.now.grid }
        ensures first { result.0 ≡ own_first (laid_out self.now) rank p }
        ensures last { result.1 ≡ own_last (laid_out self.now) rank p }
        ensures first_bounds { All (IsUpTo 41) result.0 }
        ensures last_bounds { All (IsUpTo 41) result.1 }
    {
        let sides = self.sides(rank, p);
        (firsts(sides), lasts(sides))
    }

    /// The box of an array that a processor holds: its own block, widened by the fringe, within the
    /// storage. An empty block holds nothing; then each range is `1..0`.
    pub fn held_box(&self, array: u32, p: u32) -> Region
        requires array { array < length self.now.boxes }
        requires processor { p < processors_of self.now.grid }
        ensures held { result ≡ held_box_of self.now array p }
        ensures boxed { All IsBoxed result.dims }
        ensures region { IsRegion result }
    {
        let stored = self.stored(array);
        held_by(self.sides(stored.shape.rank, p), stored)
    }

    /// The places of an array that a processor needs for a region: the part of the region in its
    /// own block, moved by the shift, within its held box.
    pub fn needed(&self, array: u32, to: u32, region: &Region, shift: Vec3) -> Region
        requires array { array < length self.now.boxes }
        requires receiver { to < processors_of self.now.grid }
        requires region { IsRegion region.now }
        ensures needed { result ≡ needed_of self.now array to region.now shift }
        ensures bounds { All HasBounds result.dims }
        ensures pieces { IsPermutation (members result)
            (flat_map (λ from. members (piece_of self.now array from to region.now shift))
            (processors self.now.grid)) }
        ensures region { (box_at self.now array).shape.rank ≡ region.now.rank
            → All HasAlign (moved shift region.now).dims → IsRegion result }
    {
        let held = self.held_box(array, to);
        needed_by(self.sides(region.rank, to), &held, region, shift)
    }

    /// The part of a region that processor `from` owns, for a receiver. In a flood dimension it is
    /// the part of the processors with the receiver's block.
    pub fn owned(&self, from: u32, to: u32, region: &Region) -> Region
        requires above { 1 ≤ region.now.rank }
        requires below { region.now.rank ≤ 3 }
        requires owner { from < processors_of self.now.grid }
        requires receiver { to < processors_of self.now.grid }
        ensures owned { result ≡ owned_part (laid_out self.now) from to region.now }
        ensures region { IsRegion region.now → IsRegion result }
    {
        let sides = self.sides(region.rank, from);
        let others = self.sides(region.rank, to);
        owned_by(sides, others, region)
    }

    /// The places of an array that `to` needs and `from` owns. In a flood dimension those with the
    /// receiver's block own its one position.
    pub fn piece(&self, array: u32, from: u32, to: u32, region: &Region, shift: Vec3) -> Region
        requires array { array < length self.now.boxes }
        requires owner { from < processors_of self.now.grid }
        requires receiver { to < processors_of self.now.grid }
        requires region { IsRegion region.now }
        ensures piece { result ≡ piece_of self.now array from to region.now shift }
        ensures region { (box_at self.now array).shape.rank ≡ region.now.rank
            → All HasAlign (moved shift region.now).dims → IsRegion result }
    {
        let needed = self.needed(array, to, region, shift);
        self.owned(from, to, &needed)
    }

    /// The same places as a region that is found dimension by dimension: its tuples are those of
    /// `piece`. Where some dimension has none it is a region without tuples, of any rank.
    #[inline(always)]
    pub fn places(&self, array: u32, from: u32, to: u32, region: &Region, shift: &Vec3) -> Region
        requires array { array < length self.now.boxes }
        requires owner { from < processors_of self.now.grid }
        requires receiver { to < processors_of self.now.grid }
        requires region { IsRegion region.now }
        requires ranks { (box_at self.now array).shape.rank ≡ region.now.rank }
        requires aligned { All HasAlign (moved shift.now region.now).dims }
        ensures places { members result
            ≡ members (piece_of self.now array from to region.now shift.now) }
        ensures region { IsRegion result }
    {
        let stored = self.stored(array);
        let mine = self.sides(region.rank, from);
        let others = self.sides(region.rank, to);
        places_by(mine, others, stored, region.rank, &region.dims, shift)
    }

    /// Whether `from` owns some place of an array that `to` needs.
    #[inline(always)]
    pub fn has_places(&self, array: u32, from: u32, to: u32, region: &Region, shift: &Vec3) -> bool
        requires array { array < length self.now.boxes }
        requires owner { from < processors_of self.now.grid }
        requires receiver { to < processors_of self.now.grid }
        requires region { IsRegion region.now }
        requires ranks { (box_at self.now array).shape.rank ≡ region.now.rank }
        requires aligned { All HasAlign (moved shift.now region.now).dims }
        ensures { result ≡ nat_lt 0
            (length (members (piece_of self.now array from to region.now shift.now))) }
    {
        let places = self.places(array, from, to, region, shift);
        has_tuples(&places.dims)
    }
}
