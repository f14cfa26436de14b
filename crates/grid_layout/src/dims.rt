//! One dimension of a held box or of a piece.
ghost use Rattle.std.specs.Prelude.{◌≡◌, ◌==◌, ◌^◌, ◌+◌, ◌≤◌, All, length, map, nat_lt};
ghost use Rattle.zpl_region.specs.Dim.{HasBounds, IsDim, IsUpTo, coordinates, dim_moved};
ghost use Rattle.zpl_region.specs.Ends.{coordinate_count, tuple_count};
ghost use Rattle.zpl_region.specs.Region.{components, tuples};
ghost use Rattle.zpl_region.specs.Hull.{IsBoxed, all_from, dim_emptied};
ghost use Rattle.grid_layout.specs.Layout.{HasWideBounds, or_emptied};
ghost use Rattle.grid_layout.specs.Piece.{part, place_dim, range_or_nothing};
ghost use Rattle.grid_layout.specs.Sides.{is_bare};

use zpl_region::{Dim, Region, Vec3};

/// What stands for a dimension past the rank.
const PADDING: Dim = Dim::Range {
    lo: 0,
    hi: 0,
    step: 1,
    align: 0,
};

/// A shift by more than this moves each range of a region away from each held box.
pub(crate) const FARTHEST_SHIFT: i64 = 1 << 41;

/// No tuples: a range with its bounds the wrong way round.
pub(crate) const NOWHERE: Region = Region {
    rank: 1,
    dims: [
        Dim::Range {
            lo: 1,
            hi: 0,
            step: 1,
            align: 1,
        },
        PADDING,
        PADDING,
    ],
};

/// The integers from `lo` to `hi`.
pub(crate) fn all_from(lo: i64, hi: i64) -> Dim
    ensures { result ≡ all_from lo hi }
{
    Dim::Range {
        lo,
        hi,
        step: 1,
        align: lo,
    }
}

/// A range without coordinates in the place of a range.
pub(crate) fn emptied(dim: Dim) -> Dim
    ensures { result ≡ dim_emptied dim }
{
    match dim {
        Dim::Range { .. } => all_from(1, 0),
        Dim::Flood => Dim::Flood,
    }
}

/// How many coordinates a dimension of a box has.
pub fn size(dim: Dim) -> u64
    requires boxed { IsBoxed dim }
    requires bounds { HasWideBounds dim }
    ensures size { result ≡ coordinate_count dim }
    ensures few { result ≤ 2 ^ 42 + 1 }
{
    let Dim::Range { lo, hi, .. } = dim else {
        return 1;
    };
    if hi < lo {
        return 0;
    }
    hi.abs_diff(lo) + 1
}

/// How many tuples a box with these dimensions has.
pub(crate) fn tuples(dims: &[Dim; 3]) -> u128
    requires boxed { All IsBoxed dims.now }
    requires bounds { All HasWideBounds dims.now }
    ensures { result ≡ tuple_count dims.now }
{
    let [planes, rows, columns] = *dims;
    u128::from(size(planes)) * u128::from(size(rows)) * u128::from(size(columns))
}

/// The box with these dimensions. Where some range has no coordinate, each is `1..0`.
pub(crate) fn or_emptied(rank: u8, dims: &[Dim; 3]) -> Region
    requires above { 1 ≤ rank }
    requires below { rank ≤ 3 }
    requires boxed { All IsBoxed dims.now }
    requires bounds { All HasWideBounds dims.now }
    ensures region { result ≡ or_emptied (record { rank = rank; dims = dims.now }) }
    ensures boxed { All IsBoxed result.dims }
    ensures bounds { All HasWideBounds result.dims }
{
    if tuples(dims) > 0 {
        return Region { rank, dims: *dims };
    }
    let [planes, rows, columns] = *dims;
    let dims = match rank {
        1 => [emptied(planes), rows, columns],
        2 => [emptied(planes), emptied(rows), columns],
        _ => [emptied(planes), emptied(rows), emptied(columns)],
    };
    Region { rank, dims }
}

/// The coordinates of a dimension from `lo` to `hi`: `1..0` where the bounds are the wrong way
/// round. A flood dimension stays flood.
#[inline(always)]
pub fn part(dim: Dim, lo: i64, hi: i64) -> Dim
    ensures { result ≡ part lo hi dim }
{
    let Dim::Range {
        lo: from,
        hi: to,
        step,
        align,
    } = dim
    else {
        return dim;
    };
    range_or_nothing(from.max(lo), to.min(hi), step, align)
}

/// The range with these bounds: `1..0` where they are the wrong way round.
#[inline(always)]
pub(crate) fn range_or_nothing(lo: i64, hi: i64, step: i64, align: i64) -> Dim
    ensures { result ≡ range_or_nothing lo hi step align }
{
    if lo > hi {
        return all_from(1, 0);
    }
    Dim::Range {
        lo,
        hi,
        step,
        align,
    }
}

/// Whether a range has its bounds the wrong way round.
#[inline(always)]
pub(crate) fn is_bare(dim: &Dim) -> bool
    ensures { result ≡ is_bare dim.now }
{
    match *dim {
        Dim::Range { lo, hi, .. } => lo > hi,
        Dim::Flood => false,
    }
}

/// Whether a dimension has some coordinate.
#[inline(always)]
fn has_some(dim: &Dim) -> bool
    requires { IsDim dim.now }
    ensures { result ≡ nat_lt 0 (coordinate_count dim.now) }
{
    match *dim {
        Dim::Range {
            lo,
            hi,
            step: 1,
            ..
        } => lo <= hi,
        _ => !is_empty(*dim),
    }
}

/// Whether there is some tuple with a coordinate of each of these dimensions.
#[inline(always)]
pub(crate) fn has_tuples(dims: &[Dim; 3]) -> bool
    requires { All IsDim dims.now }
    ensures { result ≡ nat_lt 0 (length (tuples (map coordinates dims.now))) }
{
    let [planes, rows, columns] = dims;
    if !has_some(planes) {
        return false;
    }
    if !has_some(rows) {
        return false;
    }
    has_some(columns)
}

/// Whether a dimension has no coordinate.
fn is_empty(dim: Dim) -> bool
    requires { IsDim dim }
    ensures { result ≡ (coordinate_count dim == 0) }
{
    Region {
        rank: 1,
        dims: [dim, PADDING, PADDING],
    }
    .is_empty()
}

/// The dimension, moved by `d`.
fn moved(dim: Dim, d: i64) -> Dim
    requires shift { IsUpTo 41 d }
    requires dim { IsDim dim }
    ensures { result ≡ dim_moved d dim }
{
    let Dim::Range {
        lo,
        hi,
        step,
        align,
    } = dim
    else {
        return dim;
    };
    Dim::Range {
        lo: lo + d,
        hi: hi + d,
        step,
        align: align + d,
    }
}

/// The places that a dimension of indices, moved by `d`, names in a dimension of a held box.
pub(crate) fn place(held: Dim, d: i64, dim: Dim) -> Dim
    requires held { HasBounds held }
    requires dim { IsDim dim }
    ensures { result ≡ place_dim held d dim }
{
    let Dim::Range { lo, hi, .. } = held else {
        return if is_empty(dim) {
            all_from(1, 0)
        } else {
            Dim::Flood
        };
    };
    if let Dim::Flood = dim {
        return part(all_from(0, 0), lo, hi);
    }
    if d < -FARTHEST_SHIFT || d > FARTHEST_SHIFT {
        return all_from(1, 0);
    }
    part(moved(dim, d), lo, hi)
}

/// The components of a vector up to the rank, and 0 past it.
#[inline(always)]
pub fn components(rank: u8, v: &Vec3) -> Vec3
    requires above { 1 ≤ rank }
    requires below { rank ≤ 3 }
    ensures { result ≡ components rank v.now }
{
    let [x, y, z] = *v;
    match rank {
        1 => [x, 0, 0],
        2 => [x, y, 0],
        _ => [x, y, z],
    }
}
