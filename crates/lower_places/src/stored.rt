//! Arrays of the tables.

use zpl_region::Region;

/// An array of the tables, with its storage.
#[derive(Clone, Copy)]
pub struct Stored {
    /// The number of the array.
    pub array: u32,
    /// Its storage.
    pub storage: Region,
}
