//! Regions that facts tell, and what they show.
ghost use Rattle.std.specs.Prelude.{◌≡◌, ◌≤◌, length, OkIff, IfOk, pos, true};
ghost use Rattle.zpl_region.specs.Region.{IsRegion, IsWithinLimit};
ghost use Rattle.node_form.specs.Control.{conforms, formed_by};
ghost use Rattle.node_form.specs.Fits.{FitsArray, storage_of};
ghost use Rattle.grid_meaning.specs.Stored.{no_places};
ghost use Rattle.code_parts.specs.Needs.{is_within};

use node_form::{ArrayRow, RegionForm, SameKind, storage_dim};
use zpl_arrays::{flood_conforms, is_reference, reduction_conforms};
use zpl_region::{Dim, Region, RegionLimit, Vec3};

/// The region that a form makes of another one and a vector, unless it passes the limit.
pub(crate) fn formed(form: RegionForm, region: &Region, shift: Vec3) -> Result<Region, RegionLimit>
    requires { IsRegion region.now }
    ensures limit { let made = formed_by form shift region.now in
        OkIff result (IsWithinLimit made) made }
    ensures region { IfOk result IsRegion }
{
    match form {
        RegionForm::Of => region.of(shift),
        RegionForm::Inside => region.inside(shift),
        RegionForm::At => region.at(shift),
        RegionForm::By => region.by(shift),
    }
}

/// Whether two regions conform.
pub(crate) fn conforms(kind: SameKind, target: &Region, source: &Region) -> bool
    requires target { IsRegion target.now }
    requires source { IsRegion source.now }
    ensures { result ≡ conforms kind target.now source.now }
{
    match kind {
        SameKind::Part => reduction_conforms(target, source),
        SameKind::Flood => flood_conforms(target, source),
    }
}

/// Whether the region, moved by the vector, lies in the storage of a stored array.
pub(crate) fn is_within(row: &ArrayRow, shift: &Vec3, region: &Region) -> bool
    requires row { FitsArray row.now }
    requires stored { row.now.stored ≡ true }
    requires region { IsRegion region.now }
    ensures { result ≡ is_within shift.now region.now (Some row.now) }
{
    let storage = storage_of(row);
    is_reference(shift, region, &storage)
}

/// The places that an array has.
fn storage_of(row: &ArrayRow) -> Region
    ensures places { result ≡ storage_of row.now }
    ensures many { length row.now.dims ≡ 3 }
{
    let [planes, rows, columns] = row.dims;
    Region {
        rank: row.rank,
        dims: [storage_dim(planes), storage_dim(rows), storage_dim(columns)],
    }
}

fn all_from(lo: i64, hi: i64) -> Dim
    ensures { result ≡ Dim.Range lo hi (pos 1) lo }
{
    Dim::Range {
        lo,
        hi,
        step: 1,
        align: lo,
    }
}

/// The region of a rank that has no tuples: `1..0` in each dimension.
pub(crate) fn no_places(rank: u8) -> Region
    requires above { 1 ≤ rank }
    requires below { rank ≤ 3 }
    ensures places { result ≡ no_places rank }
    ensures region { IsRegion result }
{
    let none = all_from(1, 0);
    let past = all_from(0, 0);
    Region {
        rank,
        dims: [
            none,
            if rank > 1 { none } else { past },
            if rank > 2 { none } else { past },
        ],
    }
}
