//! Regions whose dimensions are made one by one.
ghost use Rattle.std.specs.Prelude.{◌≡◌, ◌≤◌, ◌<◌, length, All, IfSome, Some, take};
ghost use Rattle.std.specs.Option.{option_map};
ghost use Rattle.grid_meaning.specs.Turn.{registers_of};
ghost use Rattle.node_control.specs.Running.{CanRun};
ghost use Rattle.node_form.specs.Control.{part_dim, part_dims, region_of};
ghost use Rattle.node_form.specs.Fits.{FitsPart};
ghost use Rattle.node_form.specs.Value.{divided, mapped};
ghost use Rattle.zpl_region.specs.Dim.{HasStep};
ghost use Rattle.zpl_region.specs.Region.{IsPadded, padding};

use crate::regions::region_in;
use crate::values::scalar_value;
use node_form::{DimRow, NodeProgram};
use node_local::Local;
use zpl_region::Dim;

/// What stands for a dimension past the rank.
const PADDING: Dim = Dim::Range {
    lo: 0,
    hi: 0,
    step: 1,
    align: 0,
};

/// The dimension of a row's part, by its number counted from 0; `None` where a divisor is 0.
fn part_dim(
    code: &NodeProgram,
    local: &mut Local,
    rank: u8,
    number: u8,
    part: DimRow,
) -> Option<Dim>
    requires can { CanRun code.now local.old }
    requires number { number < 3 }
    requires part { FitsPart code.now rank part }
    ensures value { part_dim code.now (registers_of local.old.local) number part ≡ divided result }
    ensures step { IfSome result HasStep }
    ensures same { local.new ≡ local.old }
{
    match part {
        DimRow::Span(low, high) => {
            let lo = scalar_value(code, local, low)?;
            let hi = scalar_value(code, local, high)?;
            Some(Dim::Range {
                lo,
                hi,
                step: 1,
                align: lo,
            })
        }
        DimRow::Star => Some(Dim::Flood),
        DimRow::Copied(slot) => {
            let region = region_in(code, local, slot);
            Some(region.dims[usize::from(number)])
        }
    }
}

/// The same, or what stands past the rank.
fn dim_or_padding(
    code: &NodeProgram,
    local: &mut Local,
    rank: u8,
    number: u8,
    part: DimRow,
) -> Option<Dim>
    requires can { CanRun code.now local.old }
    requires number { number < 3 }
    requires part { FitsPart code.now rank part }
    ensures value { number < rank →
        part_dim code.now (registers_of local.old.local) number part ≡ divided result }
    ensures past { rank ≤ number → result ≡ Some padding }
    ensures step { IfSome result HasStep }
    ensures same { local.new ≡ local.old }
{
    if number < rank {
        part_dim(code, local, rank, number, part)
    } else {
        Some(PADDING)
    }
}

/// The three dimensions of a region of this rank; `None` where a divisor is 0.
pub(crate) fn region_dims(
    code: &NodeProgram,
    local: &mut Local,
    rank: u8,
    parts: &[DimRow; 3],
) -> Option<[Dim; 3]>
    requires can { CanRun code.now local.old }
    requires above { 1 ≤ rank }
    requires below { rank ≤ 3 }
    requires parts { All (FitsPart code.now rank) parts.now }
    ensures value { mapped (λ dims. (region_of rank dims).dims)
        (part_dims code.now (registers_of local.old.local) 0 (take rank parts.now))
        ≡ divided result }
    ensures steps { IfSome result (All HasStep) }
    ensures padded { IfSome result (IsPadded rank) }
    ensures same { local.new ≡ local.old }
{
    let [first, second, third] = *parts;
    let planes = dim_or_padding(code, local, rank, 0, first)?;
    let rows = dim_or_padding(code, local, rank, 1, second)?;
    let columns = dim_or_padding(code, local, rank, 2, third)?;
    Some([planes, rows, columns])
}
