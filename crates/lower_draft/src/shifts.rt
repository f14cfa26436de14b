//! Shifts with which arrays are read.
use std::marker::Model;
use zpl_region::Vec3;

/// An array that is read with a shift. The shift is from -2^41 to 2^41 in each dimension.
#[derive(Clone, Copy, Debug)]
pub(crate) struct Shifted {
    pub(crate) array: u32,
    pub(crate) shift: Vec3,
}

impl Model for Shifted {
    ghost use Rattle.std.specs.Prelude.{All};
    ghost use Rattle.zpl_region.specs.Dim.{IsUpTo};
    ghost use Rattle.zpl_lowering.specs.Hoist.{Shifted as Read};

    ghost Value = { Read };

    ghost view = { λ shifted. record { array = shifted.array; shift = shifted.shift } };

    ghost inverse = { λ read. record { array = read.array; shift = read.shift } };

    ghost invariant = { λ shifted. All (IsUpTo 41) shifted.shift };
}
