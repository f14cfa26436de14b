//! Fringes: how far beyond its block a processor holds an array.
ghost use Rattle.std.specs.Prelude.{◌≡◌, IfOk, All};
ghost use Rattle.zpl_region.specs.Dim.{IsUpTo};
ghost use Rattle.zpl_lowering.specs.Tables.{all_wider, stored_dim, stored_dims, wider};
ghost use Rattle.lower_draft.specs.Spread.{fringed_row, no_fringes, spread_over};

use crate::shifts::Shifted;
use std::alloc::{AllocError, Global};
use std::marker::Model;
use zpl_lowering::node_form::{ArrayDim, ArrayRow};
use zpl_region::{Dim, Region, Vec3};

/// The greatest shifts downward and upward in a dimension.
#[derive(Clone, Copy, Debug)]
pub(crate) struct Fringe {
    low: i64,
    high: i64,
}

impl Model for Fringe {
    ghost use Rattle.zpl_lowering.specs.Tables.{Fringe as Widths};

    ghost Value = { Widths };

    ghost view = { λ fringe. record { low = fringe.low; high = fringe.high } };

    ghost inverse = { λ widths. record { low = widths.low; high = widths.high } };
}

/// A dimension past the rank.
pub(crate) const NO_RANGE: ArrayDim = ArrayDim::Range {
    lo: 0,
    hi: 0,
    low: 0,
    high: 0,
};

/// The fringes of an array that is read with no shift.
fn no_fringes() -> [Fringe; 3]
    ensures { result ≡ no_fringes }
{
    [Fringe { low: 0, high: 0 }; 3]
}

/// The fringe, where the array is also read with this shift.
fn wider(fringe: Fringe, d: i64) -> Fringe
    requires { IsUpTo 41 d }
    ensures { result ≡ wider fringe d }
{
    Fringe {
        low: fringe.low.max(-d),
        high: fringe.high.max(d),
    }
}

/// The same of all dimensions.
fn all_wider(fringes: [Fringe; 3], shift: Vec3) -> [Fringe; 3]
    requires { All (IsUpTo 41) shift }
    ensures { result ≡ all_wider fringes shift }
{
    let [one, two, three] = fringes;
    let [d, e, f] = shift;
    [wider(one, d), wider(two, e), wider(three, f)]
}

/// The fringes of so many arrays, by their numbers.
pub(crate) fn fringes_of(
    alloc: Global,
    count: usize,
    shifts: &[Shifted],
) -> Result<Vec<[Fringe; 3]>, AllocError>
    ensures { IfOk result (λ fringes. fringes.items ≡ spread_over count shifts.now) }
{
    let mut fringes = Vec::from_elem(alloc, no_fringes(), count)?;
    for one in shifts {
        let k = one.array as usize;
        if k < fringes.len() {
            fringes[k] = all_wider(fringes[k], one.shift);
        }
    }
    Ok(fringes)
}

/// A dimension of a stored array.
fn stored_dim(dim: Dim, fringe: Fringe) -> ArrayDim
    ensures { result ≡ stored_dim dim fringe }
{
    match dim {
        Dim::Range { lo, hi, .. } => {
            ArrayDim::Range {
                lo,
                hi,
                low: fringe.low,
                high: fringe.high,
            }
        }
        Dim::Flood => ArrayDim::Star,
    }
}

/// The dimensions of a stored array: as many of them as its rank, and nothing past it.
#[tactic(auto, using(crate::proofs::FringeLemmas::stored_all))]
fn stored_dims(rank: u8, dims: [Dim; 3], fringes: [Fringe; 3]) -> [ArrayDim; 3]
    ensures { result ≡ stored_dims rank dims fringes }
{
    let [one, two, three] = dims;
    let [low, middle, high] = fringes;
    match rank {
        0 => [NO_RANGE, NO_RANGE, NO_RANGE],
        1 => [stored_dim(one, low), NO_RANGE, NO_RANGE],
        2 => [stored_dim(one, low), stored_dim(two, middle), NO_RANGE],
        _ => [
            stored_dim(one, low),
            stored_dim(two, middle),
            stored_dim(three, high),
        ],
    }
}

/// The row of a stored array.
pub(crate) fn stored_row(storage: &Region, fringes: [Fringe; 3]) -> ArrayRow
    ensures { result ≡ fringed_row storage.now fringes }
{
    ArrayRow {
        rank: storage.rank,
        stored: true,
        dims: stored_dims(storage.rank, storage.dims, fringes),
    }
}
