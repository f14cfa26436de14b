//! How a run ends, and the two border statements.

/// Why a program's run stops before its end.
#[derive(Clone, Copy, Debug, PartialEq, Eq)]
pub enum TrapKind {
    /// A quotient or a remainder has the divisor 0.
    DivideByZero,
    /// A reference names a place that the array's storage doesn't have.
    OutsideStorage,
    /// A region passes the limits on bounds, steps, alignments or points.
    RegionLimit,
    /// The regions of a statement don't conform.
    RegionMismatch,
}

/// How a run ends, or that it wants to go on.
#[derive(Clone, Copy, Debug, PartialEq, Eq)]
pub enum End {
    /// The run came to its normal end.
    Done,
    /// The run stopped at a statement on this line, counted from 1.
    Trap(TrapKind, u32),
    /// The run was cut off by a bound, and wanted to go on.
    More,
}

/// Which values a border statement puts around a region.
#[derive(Clone, Copy, Debug, PartialEq, Eq)]
pub enum Border {
    /// Those of the opposite side.
    Wrap,
    /// Those of the same side, mirrored.
    Reflect,
}
