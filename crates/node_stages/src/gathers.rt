//! The stages of gathers.
ghost use Rattle.std.specs.Prelude.{◌≡◌, ◌<◌, length, nat_lt, slice_get, Some};
ghost use Rattle.grid_meaning.specs.Collective.{others_where};
ghost use Rattle.grid_meaning.specs.Gather.{gather_stages};
ghost use Rattle.grid_meaning.specs.Local.{processors};
ghost use Rattle.grid_meaning.specs.Owner.{tuples_of};
ghost use Rattle.grid_meaning.specs.State.{IsSlot};
ghost use Rattle.grid_meaning.specs.Stored.{arrangement_of};
ghost use Rattle.node_stages.specs.Partners.{flagged};
ghost use Rattle.node_stages.specs.Stage.{staged};
ghost use Rattle.reduce_plan.specs.of_zpl_region.Region.{IsRegion, members};

use crate::partners::{MOST, taking_stage};
use crate::stages::Stage;
use grid_meaning::grid_layout::{Layout, part};
use grid_meaning::node_form::NodeProgram;
use reduce_plan::zpl_region::Region;

/// The tuples of a region within a processor's own block.
#[inline(always)]
pub fn own_tuples(code: &NodeProgram, layout: &Layout, region: &Region, q: u32) -> Region
    requires layout { layout.now ≡ arrangement_of code.now }
    requires slot { IsSlot region.now.rank region.now }
    requires processor { q < processors code.now }
    ensures tuples { members result ≡ tuples_of code.now q region.now }
    ensures region { IsRegion result }
{
    let _blocks = layout.blocks();
    let (first, last) = layout.own_block(region.rank, q);
    let [planes, rows, columns] = region.dims;
    Region {
        rank: region.rank,
        dims: [
            part(planes, first[0], last[0]),
            part(rows, first[1], last[1]),
            part(columns, first[2], last[2]),
        ],
    }
}

/// Whether there are any.
fn has_tuples(code: &NodeProgram, layout: &Layout, region: &Region, q: u32) -> bool
    requires layout { layout.now ≡ arrangement_of code.now }
    requires slot { IsSlot region.now.rank region.now }
    requires processor { q < processors code.now }
    ensures { result ≡ nat_lt 0 (length (tuples_of code.now q region.now)) }
{
    let own = own_tuples(code, layout, region, q);
    !own.is_empty()
}

/// Sets the flags of the processors beside p that have tuples of the region.
fn mark_holders(
    code: &NodeProgram,
    layout: &Layout,
    region: &Region,
    p: u32,
    flags: &mut [bool; MOST],
)
    requires layout { layout.now ≡ arrangement_of code.now }
    requires slot { IsSlot region.now.rank region.now }
    requires processor { p < processors code.now }
    ensures { flagged flags.new (processors code.now)
        ≡ others_where code.now p (λ q. length (tuples_of code.now q region.now)) }
{
    for q in 0..layout.grid().count() {
        flags[q as usize] = q != p && has_tuples(code, layout, region, q);
    }
}

/// What processor p does in `gather`, over this region, when it has made so many turns there.
pub fn gather_stage(
    code: &NodeProgram,
    layout: &Layout,
    region: &Region,
    p: u32,
    made: u64,
) -> Stage
    requires layout { layout.now ≡ arrangement_of code.now }
    requires slot { IsSlot region.now.rank region.now }
    requires processor { p < processors code.now }
    requires made { made < length (gather_stages code.now p region.now) }
    ensures { slice_get (gather_stages code.now p region.now) made ≡ Some (staged result) }
{
    if p == 0 {
        let mut takes = [false; MOST];
        mark_holders(code, layout, region, p, &mut takes);
        taking_stage(&takes, layout.grid().count(), made)
    } else if made == 0 && has_tuples(code, layout, region, p) {
        Stage::Sends(0)
    } else {
        Stage::Last
    }
}
