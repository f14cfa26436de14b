//! The part of a region that a processor owns.
ghost use Rattle.std.specs.Prelude.{◌≡◌, ◌<◌, ◌≤◌, ◌^◌, length};
ghost use Rattle.grid_layout.specs.Layout.{AreBlocks, laid_out};
ghost use Rattle.grid_layout.specs.Piece.{owned_part};
ghost use Rattle.grid_meaning.specs.Local.{processors};
ghost use Rattle.grid_meaning.specs.Owner.{tuples_of};
ghost use Rattle.grid_meaning.specs.State.{IsSlot};
ghost use Rattle.grid_meaning.specs.Stored.{arrangement_of};
ghost use Rattle.zpl_region.specs.Region.{IsRegion, members};

use grid_layout::Layout;
use node_form::NodeProgram;
use zpl_region::Region;

/// The part of a region within a processor's own block.
pub(crate) fn own_part(code: &NodeProgram, layout: &Layout, region: &Region, q: u32) -> Region
    requires layout { layout.now ≡ arrangement_of code.now }
    requires slot { IsSlot region.now.rank region.now }
    requires processor { q < processors code.now }
    ensures part { result ≡ owned_part (laid_out (arrangement_of code.now)) q q region.now }
    ensures tuples { members result ≡ tuples_of code.now q region.now }
    ensures region { IsRegion result }
    ensures many { length result.dims ≡ 3 }
    ensures few { length (members result) ≤ 4194304 }
    ensures sound { AreBlocks (laid_out (arrangement_of code.now)) }
{
    layout.blocks().owned(q, q, region)
}
