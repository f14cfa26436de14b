//! Arrays, and exchanges of their places.
use crate::rows::Row;
use zpl_arrays::zpl_region::Vec3;

/// The items of an exchange: places of arrays that processors send each other in one message.
pub type ExchangeRow = Row<Item>;

/// An array: a stored one, whose places are there from the start, or a temporary, whose places are
/// made by the code. Dimensions past the rank are a `Range` of four zeros.
#[derive(Clone, Copy, Debug)]
pub struct ArrayRow {
    pub rank: u8,
    pub stored: bool,
    pub dims: [ArrayDim; 3],
}

/// A dimension of an array.
#[derive(Clone, Copy, Debug)]
pub enum ArrayDim {
    /// The storage from `lo` to `hi`, and how far beyond its own block a processor holds it: `low`
    /// places downward and `high` upward. That of a temporary is four zeros.
    Range {
        lo: i64,
        hi: i64,
        low: i64,
        high: i64,
    },
    /// The one position of a flood dimension.
    Star,
}

/// An item of an exchange: what a processor needs of the array for the slot's region within its own
/// block, moved by the vector.
#[derive(Clone, Copy, Debug)]
pub struct Item {
    pub array: u32,
    pub slot: u32,
    pub shift: Vec3,
}
