//! What code is built for.
use node_form::Grid3;
use zpl_claims::Options;

/// What code is built for.
#[derive(Clone, Copy)]
pub struct Build {
    /// The factors of the grid, 0 for each absent one.
    pub grid: Grid3,
    /// The optimisations.
    pub options: Options,
    /// The most messages on a link, where that is bounded.
    pub links: Option<u32>,
}
