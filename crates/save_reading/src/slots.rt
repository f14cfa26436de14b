//! The lines of slots.
ghost use Rattle.std.specs.Prelude.{◌≡◌, ◌-◌, ◌++◌, ◌≤◌, ◌↔◌, IfSome, IsTrue, All, Some, length};
ghost use Rattle.std.specs.Prelude.{get_or, replicate, take};
ghost use Rattle.zpl_region.specs.Dim.{HasStep};
ghost use Rattle.zpl_region.specs.Region.{padding};
ghost use Rattle.zpl_region.specs.declared.regions.Region.{Region as Tuples};
ghost use Rattle.node_form.specs.Fits.{IsRank};
ghost use Rattle.grid_meaning.specs.State.{IsSlot};
ghost use Rattle.grid_save.specs.Reads.{IsSlotLine};

use save_lines::SavedLine;
use zpl_region::{Dim, Region};

/// What stands for a dimension past the rank.
pub(crate) const PADDING: Dim = Dim::Range {
    lo: 0,
    hi: 0,
    step: 1,
    align: 0,
};

fn dim_at(dims: &[Dim], i: usize) -> Dim
    ensures { result ≡ get_or dims.now i padding }
{
    match dims.get(i) {
        Some(dim) => *dim,
        None => PADDING,
    }
}

/// The dimensions, padded.
pub(crate) fn padded(dims: &[Dim]) -> [Dim; 3]
    requires { length dims.now ≤ 3 }
    ensures { result ≡ dims.now ++ replicate (3 - length dims.now) padding }
{
    [dim_at(dims, 0), dim_at(dims, 1), dim_at(dims, 2)]
}

fn has_step(dim: &Dim) -> bool
    ensures { IsTrue result ↔ HasStep dim.now }
{
    match *dim {
        Dim::Range { step, .. } => 1 <= step,
        Dim::Flood => true,
    }
}

fn have_steps(dims: &[Dim]) -> bool
    ensures { IsTrue result ↔ All HasStep dims.now }
{
    dims.iter().all(has_step)
}

/// The region with these dimensions, if a slot of this rank may have it.
fn region_of(rank: u8, dims: &[Dim]) -> Option<Region>
    requires { IsRank rank }
    ensures found { (region : Tuples) → IsSlot rank region → take region.rank region.dims
        ≡ dims.now → result ≡ Some region }
    ensures right { IfSome result (λ region.
        IsSlot rank region × (take region.rank region.dims ≡ dims.now)) }
{
    if dims.len() != usize::from(rank) || !have_steps(dims) {
        return None;
    }
    match Region::new(rank, padded(dims)) {
        Ok(region) => Some(region),
        Err(_) => None,
    }
}

/// The region that this line tells.
pub(crate) fn read_slot(rank: u8, line: &SavedLine) -> Option<Region>
    requires { IsRank rank }
    ensures found { (region : Tuples) → IsSlotLine rank line.now region → result ≡ Some region }
    ensures right { IfSome result (IsSlotLine rank line.now) }
{
    match line {
        SavedLine::Slot(dims) => region_of(rank, dims.as_slice()),
        _ => None,
    }
}
