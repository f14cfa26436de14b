//! The numbers that are free.

/// The numbers that are free: of scalars, slots, arrays, copies for reads that wrap round in the
/// procedure that is lowered and in those that it calls, and temporaries.
#[derive(Clone, Copy, Debug)]
pub struct Next {
    pub scalars: u32,
    pub slots: u32,
    pub arrays: u32,
    pub copies: u32,
    pub later: u32,
    pub temps: u32,
}
