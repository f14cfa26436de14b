//! Limits of files.

/// The most bytes of a listing, and of an order of turns: 16 MiB.
pub const MOST_LISTING: usize = 16_777_216;
