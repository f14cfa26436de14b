//! Why bytes are no saved text.

/// Why bytes are no saved text of a grid. Lines are counted from 1.
#[derive(Clone, Copy, Debug, PartialEq, Eq, Drop)]
pub enum SaveFault {
    /// This line has none of the forms in its place; or it is the one behind the listing, of which
    /// a part is missing.
    BadLine { line: u32 },
    /// This line of the listing is the first that breaks a rule of its tables.
    BadTable { line: u32 },
    /// This line is the first that breaks a rule of states; or it is the last one, and a line is
    /// missing.
    BadState { line: u32 },
    NoMemory,
}
