//! Changes that a turn may take back.

/// A change, with the value that was there before it. A place is one in the array's row of values.
#[derive(Clone, Copy, Debug)]
pub enum Change {
    Scalar(usize, i64),
    Cell(usize, i64),
    Place(usize, usize, i64),
}
