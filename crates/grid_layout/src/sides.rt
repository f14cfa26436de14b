//! The blocks of a processor, one in each dimension: where each begins and ends.
ghost use Rattle.std.specs.Prelude.{◌≡◌, ◌≤ℤ◌, ◌^◌, All, length, map, neg_ℤ, pos};
ghost use Rattle.zpl_region.specs.Dim.{HasBounds, IsDim, IsUpTo};
ghost use Rattle.zpl_region.specs.Hull.{IsBoxed, all_from};
ghost use Rattle.zpl_region.specs.Region.{IsRegion};
ghost use Rattle.grid_layout.specs.Layout.{HasThree, HasWideBounds, IsArrayBox, IsFringe};
ghost use Rattle.grid_layout.specs.Sides.{
  ArePlaces,
  IsSide,
  held_between,
  needed_between,
  owned_between,
  side_held,
  side_needed,
  side_owned,
  side_place,
};

use crate::boxes::ArrayBox;
use crate::dims::{
    FARTHEST_SHIFT, NOWHERE, all_from, components, is_bare, or_emptied, part, place,
    range_or_nothing,
};
use zpl_region::{Dim, Region, Vec3};

/// A block of one dimension.
#[derive(Clone, Copy)]
pub(crate) struct Side {
    /// Its number.
    pub(crate) block: u32,
    /// Its first coordinate.
    pub(crate) first: i64,
    /// Its last coordinate.
    pub(crate) last: i64,
    /// Whether it has no coordinate.
    pub(crate) is_empty: bool,
}

impl Side {
    /// The part of a storage's dimension that is held with the block.
    fn held(self, low: i64, high: i64, dim: Dim) -> Dim
        requires side { IsSide self }
        requires down { IsFringe low }
        requires up { IsFringe high }
        requires dim { HasBounds dim }
        ensures held { result ≡ side_held self low high dim }
        ensures boxed { IsBoxed result }
        ensures bounds { HasWideBounds result }
    {
        let Dim::Range { lo, hi, .. } = dim else {
            return dim;
        };
        if self.is_empty {
            return all_from(1, 0);
        }
        let first = self.first - low;
        let last = self.last + high;
        all_from(lo.max(first), hi.min(last))
    }

    /// What the block needs of a held box: its part of the indices, moved by `d`.
    fn needed(self, held: Dim, d: i64, dim: Dim) -> Dim
        requires held { HasBounds held }
        requires dim { IsDim dim }
        ensures { result ≡ side_needed self held d dim }
    {
        let own = part(dim, self.first, self.last);
        place(held, d, own)
    }

    /// The part of a dimension in the block, for a receiver with the block `to`.
    fn owned(self, to: Side, dim: Dim) -> Dim
        ensures { result ≡ side_owned self to dim }
    {
        match dim {
            Dim::Range { .. } => part(dim, self.first, self.last),
            Dim::Flood if self.block == to.block => Dim::Flood,
            Dim::Flood => all_from(1, 0),
        }
    }
}

/// The coordinates from `lo` to `hi`, which the block `to` holds, that it needs for a dimension of
/// indices and a shift by `d`, and that the block `from` owns: all bounds are met at once.
#[inline(always)]
fn place_within(from: &Side, to: &Side, lo: i64, hi: i64, d: i64, dim: &Dim) -> Dim
    requires mine { IsSide from.now }
    requires other { IsSide to.now }
    requires low { neg_ℤ (pos (2 ^ 40)) ≤ℤ lo }
    requires high { hi ≤ℤ pos (2 ^ 40) }
    requires dim { IsDim dim.now }
    ensures { result ≡ side_owned from.now to.now
        (side_needed to.now (all_from lo hi) d dim.now) }
{
    let Dim::Range {
        lo: begin,
        hi: end,
        step,
        align,
    } = *dim
    else {
        return range_or_nothing(lo.max(0).max(from.first), hi.min(0).min(from.last), 1, 0);
    };
    if d < -FARTHEST_SHIFT || d > FARTHEST_SHIFT {
        return all_from(1, 0);
    }
    let first = begin.max(to.first) + d;
    let last = end.min(to.last) + d;
    range_or_nothing(
        first.max(lo).max(from.first),
        last.min(hi).min(from.last),
        step,
        align + d,
    )
}

/// The coordinates of an array's dimension that the block `to` needs for a dimension of indices
/// and a shift by `d`, and that the block `from` owns.
#[inline(always)]
fn place_between(
    from: &Side,
    to: &Side,
    low: i64,
    high: i64,
    stored: &Dim,
    d: i64,
    dim: &Dim,
) -> Dim
    requires mine { IsSide from.now }
    requires other { IsSide to.now }
    requires down { IsFringe low }
    requires up { IsFringe high }
    requires stored { HasBounds stored.now }
    requires dim { IsDim dim.now }
    ensures { result ≡ side_place from.now to.now low high stored.now d dim.now }
{
    let Dim::Range { lo, hi, .. } = *stored else {
        return from.owned(*to, to.needed(Dim::Flood, d, *dim));
    };
    if to.is_empty {
        return all_from(1, 0);
    }
    let first = to.first - low;
    let last = to.last + high;
    place_within(from, to, lo.max(first), hi.min(last), d, dim)
}

/// The first coordinates.
#[inline(always)]
pub(crate) fn firsts(sides: &[Side; 3]) -> Vec3
    requires { All IsSide sides.now }
    ensures first { result ≡ map (λ side. side.first) sides.now }
    ensures bounds { All (IsUpTo 41) result }
{
    let [planes, rows, columns] = *sides;
    [planes.first, rows.first, columns.first]
}

/// The last coordinates.
#[inline(always)]
pub(crate) fn lasts(sides: &[Side; 3]) -> Vec3
    requires { All IsSide sides.now }
    ensures last { result ≡ map (λ side. side.last) sides.now }
    ensures bounds { All (IsUpTo 41) result }
{
    let [planes, rows, columns] = *sides;
    [planes.last, rows.last, columns.last]
}

/// The box of an array that is held with these blocks: they are widened by the fringe, within the
/// storage. An empty block holds nothing; then each range is `1..0`.
pub(crate) fn held_by(sides: &[Side; 3], array: &ArrayBox) -> Region
    requires sides { All IsSide sides.now }
    requires array { IsArrayBox array.now }
    ensures held { result ≡ held_between sides.now array.now }
    ensures boxed { All IsBoxed result.dims }
    ensures bounds { All HasWideBounds result.dims }
    ensures three { HasThree array.now }
{
    let [planes, rows, columns] = *sides;
    let [down_planes, down_rows, down_columns] = array.low;
    let [up_planes, up_rows, up_columns] = array.high;
    let [x, y, z] = array.shape.dims;
    let dims = [
        planes.held(down_planes, up_planes, x),
        rows.held(down_rows, up_rows, y),
        columns.held(down_columns, up_columns, z),
    ];
    or_emptied(array.shape.rank, &dims)
}

/// The places of a held box that its processor, with these blocks, needs for a region: the part of
/// the region in the blocks, moved by the shift, whose components past the rank count as 0.
pub(crate) fn needed_by(sides: &[Side; 3], held: &Region, region: &Region, shift: Vec3) -> Region
    requires held { IsRegion held.now }
    requires region { IsRegion region.now }
    ensures needed { result ≡ needed_between sides.now held.now region.now shift }
    ensures held_dims { length held.now.dims ≡ 3 }
    ensures dims { length region.now.dims ≡ 3 }
    ensures shift { length shift ≡ 3 }
    ensures three { length result.dims ≡ 3 }
{
    let rank = region.rank;
    let [planes, rows, columns] = *sides;
    let [h, i, j] = held.dims;
    let [u, v, w] = components(rank, &shift);
    let [x, y, z] = region.dims;
    Region {
        rank,
        dims: [
            planes.needed(h, u, x),
            rows.needed(i, v, y),
            columns.needed(j, w, z),
        ],
    }
}

/// The part of a region that a processor with the blocks `from` owns, for a receiver with the
/// blocks `to`. In a flood dimension it is the part of the processors with the receiver's block.
pub(crate) fn owned_by(from: &[Side; 3], to: &[Side; 3], region: &Region) -> Region
    ensures owned { result ≡ owned_between from.now to.now region.now }
    ensures dims { length region.now.dims ≡ 3 }
{
    let [a, b, c] = *from;
    let [u, v, w] = *to;
    let [x, y, z] = region.dims;
    Region {
        rank: region.rank,
        dims: [a.owned(u, x), b.owned(v, y), c.owned(w, z)],
    }
}

/// The places of an array that a processor with the blocks `to` needs for a region with these
/// dimensions, and that one with the blocks `from` owns; `NOWHERE` where a range has its bounds the
/// wrong way round.
#[inline(always)]
pub(crate) fn places_by(
    from: &[Side; 3],
    to: &[Side; 3],
    array: &ArrayBox,
    rank: u8,
    dims: &[Dim; 3],
    shift: &Vec3,
) -> Region
    requires mine { All IsSide from.now }
    requires others { All IsSide to.now }
    requires array { IsArrayBox array.now }
    requires region { IsRegion (record { rank = rank; dims = dims.now }) }
    ensures places { ArePlaces (owned_between from.now to.now (needed_between to.now
        (held_between to.now array.now) (record { rank = rank; dims = dims.now }) shift.now))
        result }
    ensures three { HasThree array.now }
    ensures dims { length dims.now ≡ 3 }
    ensures shift { length shift.now ≡ 3 }
{
    let [a, b, c] = from;
    let [i, j, k] = to;
    let [down_planes, down_rows, down_columns] = array.low;
    let [up_planes, up_rows, up_columns] = array.high;
    let [s, t, r] = &array.shape.dims;
    let [u, v, w] = components(rank, shift);
    let [x, y, z] = dims;
    let planes = place_between(a, i, down_planes, up_planes, s, u, x);
    if is_bare(&planes) {
        return NOWHERE;
    }
    let rows = place_between(b, j, down_rows, up_rows, t, v, y);
    if is_bare(&rows) {
        return NOWHERE;
    }
    let columns = place_between(c, k, down_columns, up_columns, r, w, z);
    if is_bare(&columns) {
        return NOWHERE;
    }
    Region {
        rank,
        dims: [planes, rows, columns],
    }
}
