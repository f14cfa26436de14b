//! Limits of files.

/// The most bytes of a saved grid: 512 MiB.
pub const MOST_SAVED: usize = 536_870_912;
