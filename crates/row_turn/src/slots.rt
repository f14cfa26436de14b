//! Regions in slots, how many tuples regions have, and the way to the next row.
ghost use Rattle.std.specs.Prelude.{◌≡◌, ◌<◌, length, Some, slice_get};
ghost use Rattle.std.specs.List.{AllZip};
ghost use Rattle.grid_meaning.specs.Action.{goes_on};
ghost use Rattle.grid_meaning.specs.State.{IsSlot};
ghost use Rattle.zpl_region.specs.Region.{IsRegion, members};

use node_form::NodeProgram;
use node_local::Local;
use region_places::size;
use zpl_region::Region;

/// The region in a slot.
pub(crate) fn region_in(code: &NodeProgram, local: &Local, slot: u32) -> Region
    requires slots { AllZip IsSlot code.now.slots local.now.local.slots }
    requires slot { slot < length code.now.slots }
    ensures there { slice_get local.now.local.slots slot ≡ Some result }
    ensures ranked { slice_get code.now.slots slot ≡ Some result.rank }
    ensures region { IsSlot result.rank result }
{
    let _fits = code.tables();
    local.slot(slot).unwrap()
}

/// How many tuples a region has.
pub(crate) fn tuples(region: &Region) -> u128
    requires { IsRegion region.now }
    ensures { result ≡ length (members region.now) }
{
    let [planes, rows, columns] = region.dims;
    u128::from(size(planes)) * u128::from(size(rows)) * u128::from(size(columns))
}

/// Goes on to the next row.
pub(crate) fn leave(code: &NodeProgram, local: &mut Local)
    requires { local.old.local.at < length code.now.code }
    ensures { local.new ≡ record local.old { local = goes_on local.old.local } }
{
    let _count = code.tables().code.len();
    local.go_on();
}
