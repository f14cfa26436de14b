//! Regions that rows make or test.
ghost use Rattle.std.specs.Prelude.{◌≡◌, ◌<◌, length, All, OkIff, Some, slice_get, true};
ghost use Rattle.std.specs.List.{AllZip};
ghost use Rattle.grid_meaning.specs.State.{IsSlot};
ghost use Rattle.grid_meaning.specs.Turn.{registers_of};
ghost use Rattle.node_control.specs.Moving.{MovesBy};
ghost use Rattle.node_form.specs.Control.{conforms, formed_by, with_slot};
ghost use Rattle.node_form.specs.Fits.{storage_of};
ghost use Rattle.zpl_region.specs.declared.regions.Region.{Region as Tuples};
ghost use Rattle.zpl_region.specs.Dim.{HasStep};
ghost use Rattle.zpl_region.specs.Region.{IsRegion, IsWithinLimit};

use crate::moves::{go_on, trap};
use node_form::{ArrayRow, NodeProgram, RegionForm, SameKind, storage_dim};
use node_local::Local;
use zpl_arrays::{flood_conforms, reduction_conforms};
use zpl_nums::TrapKind;
use zpl_region::{Region, RegionLimit, Vec3};

/// The places that an array has.
pub(crate) fn storage_of(row: &ArrayRow) -> Region
    ensures places { result ≡ storage_of row.now }
    ensures many { length row.now.dims ≡ 3 }
{
    let [planes, rows, columns] = row.dims;
    Region {
        rank: row.rank,
        dims: [storage_dim(planes), storage_dim(rows), storage_dim(columns)],
    }
}

/// The region in a slot.
pub(crate) fn region_in(code: &NodeProgram, local: &Local, slot: u32) -> Region
    requires slots { AllZip IsSlot code.now.slots local.now.local.slots }
    requires slot { slot < length code.now.slots }
    ensures there { slice_get local.now.local.slots slot ≡ Some result }
    ensures region { IsRegion result }
{
    let _fits = code.tables();
    local.slot(slot).unwrap()
}

/// The region that a form makes of another one and a vector, unless it passes the limit.
pub(crate) fn formed(form: RegionForm, region: &Region, shift: Vec3) -> Result<Region, RegionLimit>
    requires { IsRegion region.now }
    ensures { let made = formed_by form shift region.now in OkIff result (IsWithinLimit made) made }
{
    match form {
        RegionForm::Of => region.of(shift),
        RegionForm::Inside => region.inside(shift),
        RegionForm::At => region.at(shift),
        RegionForm::By => region.by(shift),
    }
}

/// Whether two regions conform.
pub(crate) fn conforms(kind: SameKind, target: &Region, source: &Region) -> bool
    requires target { IsRegion target.now }
    requires source { IsRegion source.now }
    ensures { result ≡ conforms kind target.now source.now }
{
    match kind {
        SameKind::Part => reduction_conforms(target, source),
        SameKind::Flood => flood_conforms(target, source),
    }
}

/// The slot becomes a region that was made, and one that passes the limit is a trap.
pub(crate) fn place(
    code: &NodeProgram,
    local: &mut Local,
    slot: u32,
    line: u32,
    made: Result<Region, RegionLimit>,
)
    requires slot { slot < length local.old.local.slots }
    requires next { local.old.local.at < length code.now.code }
    ensures { (region : Tuples) → All HasStep region.dims
        → OkIff made (IsWithinLimit region) region →
        MovesBy (with_slot (registers_of local.old.local) slot line region) local.old local.new }
{
    match made {
        Ok(region) => {
            local.set_slot(slot, region);
            go_on(code, local);
        }
        Err(_) => trap(local, TrapKind::RegionLimit, line),
    }
}
