//! The own blocks of processors, found beforehand.
ghost use Rattle.std.specs.Prelude.{◌≡◌, ◌<◌, ◌≤◌, All, IfOk};
ghost use Rattle.grid_layout.specs.Grid.{processors_of};
ghost use Rattle.grid_layout.specs.Layout.{AreBlocks};
ghost use Rattle.grid_layout.specs.Own.{HasBlocks, first_own, kept_at, own_blocks};
ghost use Rattle.grid_layout.specs.Sides.{IsSide};

use crate::blocks::Blocks;
use crate::sides::Side;
use std::alloc::{AllocError, Global};

/// A processor's blocks in the dimensions of each rank.
#[derive(Clone, Copy)]
pub(crate) struct OwnBlocks {
    /// Of rank 1.
    pub(crate) lines: [Side; 3],
    /// Of rank 2.
    pub(crate) planes: [Side; 3],
    /// Of rank 3.
    pub(crate) spaces: [Side; 3],
}

impl OwnBlocks {
    /// The blocks in the dimensions of a rank.
    #[inline(always)]
    pub(crate) fn of_rank(&self, rank: u8) -> &[Side; 3]
        requires bounds { HasBlocks self.now }
        requires above { 1 ≤ rank }
        requires below { rank ≤ 3 }
        ensures own { result.now ≡ kept_at self.now rank }
        ensures bounds { All IsSide result.now }
    {
        match rank {
            1 => &self.lines,
            2 => &self.planes,
            _ => &self.spaces,
        }
    }
}

/// The own blocks of a processor.
fn own_blocks(blocks: &Blocks, p: u32) -> OwnBlocks
    requires blocks { AreBlocks blocks.now }
    requires processor { p < processors_of blocks.now.grid }
    ensures own { result ≡ own_blocks blocks.now p }
    ensures bounds { HasBlocks result }
{
    OwnBlocks {
        lines: blocks.sides(1, p),
        planes: blocks.sides(2, p),
        spaces: blocks.sides(3, p),
    }
}

/// The own blocks of all processors.
pub(crate) fn all_own(alloc: Global, blocks: &Blocks) -> Result<Vec<OwnBlocks>, AllocError>
    requires { AreBlocks blocks.now }
    ensures own { IfOk result (λ own. own.items
        ≡ first_own blocks.now (processors_of blocks.now.grid)) }
    ensures bounds { IfOk result (λ own. All HasBlocks own.items) }
{
    let mut own = Vec::new(alloc);
    for p in 0..blocks.grid.count() {
        own.push(own_blocks(blocks, p))?;
    }
    Ok(own)
}
