//! Where the region of a bracket is.

use lower_places::lower_draft::Flood;

/// Where the region of a bracket is behind its rows.
#[derive(Clone, Copy)]
pub struct Opened {
    /// The slot.
    pub slot: u32,
    /// Which dimensions of the region are flood dimensions.
    pub flood: Flood,
}
