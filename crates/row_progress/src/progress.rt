//! How far a processor is in its row.

/// How far a processor is in its row. Outside a loop `index` and `member` are 0, and inside one
/// `made` is 0.
#[derive(Clone, Copy, Debug)]
pub struct Progress {
    /// How many turns were made.
    pub made: u64,
    /// How many indices of its loop are done.
    pub index: u64,
    /// The member with which the next turn of a loop begins, 0 at a new index.
    pub member: u64,
}
