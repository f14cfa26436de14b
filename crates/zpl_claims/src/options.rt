//! Which optimisations code is built with.

/// The optimisations that are asked for.
#[derive(Clone, Copy)]
pub struct Options {
    /// Neighbouring loops over the same region are fused.
    pub fuse: bool,
    /// Arrays that one group alone names are contracted to cells.
    pub contract: bool,
    /// Exchanges of what is there already are left out.
    pub redundant: bool,
    /// Neighbouring exchanges are merged.
    pub merge: bool,
    /// Exchanges are started as early as they may be.
    pub early: bool,
    /// Processors agree, and fold, along a tree.
    pub tree: bool,
}
