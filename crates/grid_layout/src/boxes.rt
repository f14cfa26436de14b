//! The arrays that are laid out.

use zpl_region::{Region, Vec3};

/// A stored array: its storage, and how far it is read beyond a block.
#[derive(Clone, Copy, Debug, PartialEq, Eq)]
pub struct ArrayBox {
    /// The storage: ranges of step 1, and flood dimensions.
    pub shape: Region,
    /// How many positions below a block are read, in each dimension.
    pub low: Vec3,
    /// How many positions above a block are read, in each dimension.
    pub high: Vec3,
}
