//! Which dimensions of a region are flood dimensions.
ghost use Rattle.std.specs.Prelude.{◌≡◌, ◌<◌, [], ◌∷◌, ◌++◌, length, get_or, false};
ghost use Rattle.zpl_lowering.specs.Tables.{temp_dim, temp_row};
ghost use Rattle.zpl_lowering.specs.Where.{flood_of, is_flood};

use crate::fringes::NO_RANGE;
use std::marker::Model;
use zpl_lowering::node_form::{ArrayDim, ArrayRow};
use zpl_region::{Dim, Region};

/// Whether each of at most three dimensions is a flood dimension.
#[derive(Clone, Copy, Debug)]
enum Flags {
    Zero,
    One(bool),
    Two(bool, bool),
    Three(bool, bool, bool),
}

/// Whether each dimension of a region is a flood dimension, at most three of them. Contracts see it
/// as that list.
#[derive(Clone, Copy, Debug)]
pub struct Flood {
    flags: Flags,
}

impl Model for Flood {
    ghost use Rattle.std.specs.Prelude.{Bool, List};
    ghost use Rattle.std.proofs.Common.{ap};
    ghost use Rattle.lower_draft.specs.Flags.{flags_back, flags_of, listed};

    ghost Value = { List Bool };

    ghost view = { λ flood. listed flood.flags };

    ghost inverse = { λ flags. record { flags = flags_of flags } };

    ghost inverse_ok = { λ flood h.
        ap (λ flags. record { flags = flags }) (flags_back flood.flags) };
}

impl Flood {
    /// That of no dimension.
    pub fn new() -> Flood
        ensures { result ≡ [] }
    {
        Flood { flags: Flags::Zero }
    }

    /// That of a region.
    pub fn of(region: &Region) -> Flood
        ensures { result ≡ flood_of region.now }
    {
        let [one, two, three] = region.dims;
        let flags = match region.rank {
            0 => Flags::Zero,
            1 => Flags::One(is_flood(one)),
            2 => Flags::Two(is_flood(one), is_flood(two)),
            _ => Flags::Three(is_flood(one), is_flood(two), is_flood(three)),
        };
        Flood { flags }
    }

    /// How many dimensions there are.
    pub fn rank(self) -> u8
        ensures { result ≡ length self }
    {
        match self.flags {
            Flags::Zero => 0,
            Flags::One(_) => 1,
            Flags::Two(_, _) => 2,
            Flags::Three(_, _, _) => 3,
        }
    }

    /// Whether the dimension with this number, counted from 0, is a flood dimension.
    pub fn at(self, k: u8) -> bool
        ensures { result ≡ get_or self k false }
    {
        match (self.flags, k) {
            (Flags::One(one) | Flags::Two(one, _) | Flags::Three(one, _, _), 0) => one,
            (Flags::Two(_, two) | Flags::Three(_, two, _), 1) => two,
            (Flags::Three(_, _, three), 2) => three,
            _ => false,
        }
    }

    /// The dimensions with one more behind them.
    pub fn with(self, is_flood: bool) -> Flood
        requires { length self < 3 }
        ensures { result ≡ self ++ is_flood ∷ [] }
    {
        let flags = match self.flags {
            Flags::Zero => Flags::One(is_flood),
            Flags::One(one) => Flags::Two(one, is_flood),
            Flags::Two(one, two) => Flags::Three(one, two, is_flood),
            Flags::Three(one, two, three) => Flags::Three(one, two, three),
        };
        Flood { flags }
    }

    /// The row of a temporary with these flood dimensions.
    pub(crate) fn temp_row(self) -> ArrayRow
        ensures { result ≡ temp_row self }
    {
        let dims = match self.flags {
            Flags::Zero => [NO_RANGE, NO_RANGE, NO_RANGE],
            Flags::One(one) => [temp_dim(one), NO_RANGE, NO_RANGE],
            Flags::Two(one, two) => [temp_dim(one), temp_dim(two), NO_RANGE],
            Flags::Three(one, two, three) => [temp_dim(one), temp_dim(two), temp_dim(three)],
        };
        ArrayRow {
            rank: self.rank(),
            stored: false,
            dims,
        }
    }
}

/// A dimension of a temporary.
fn temp_dim(is_flood: bool) -> ArrayDim
    ensures { result ≡ temp_dim is_flood }
{
    if is_flood { ArrayDim::Star } else { NO_RANGE }
}

/// Whether a dimension is a flood dimension.
fn is_flood(dim: Dim) -> bool
    ensures { result ≡ is_flood dim }
{
    match dim {
        Dim::Flood => true,
        Dim::Range { .. } => false,
    }
}
