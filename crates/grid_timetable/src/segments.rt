//! Segments of chains.

/// Consecutive moves of one processor, and the tick that the first of them stands at.
#[derive(Clone, Copy, Debug, PartialEq, Eq)]
pub struct Segment {
    pub processor: u32,
    /// The number of the first move, from 1 on.
    pub first: u64,
    /// The number of the last one.
    pub last: u64,
    pub tick: u64,
}
