//! What a statement checks before it computes: whether regions conform, and whether references lie
//! in their storages.
ghost use Rattle.std.specs.Prelude.{◌≡◌, ◌<◌, ◌||◌, [], ◌∷◌, pos, slice_index_or};
ghost use Rattle.zpl_region.specs.Dim.{IsDim, dim_moved};
ghost use Rattle.zpl_region.specs.Ends.{coordinate_count, first_of, last_of};
ghost use Rattle.zpl_region.specs.Region.{IsRegion, components, padding};
ghost use Rattle.zpl_region.specs.Tests.{is_same_set};
ghost use Rattle.zpl_arrays.specs.Border.{border_conforms, dim_border_conforms};
ghost use Rattle.zpl_arrays.specs.Conformity.{flood_conforms, is_collapsed, is_single};
ghost use Rattle.zpl_arrays.specs.Conformity.{reduction_conforms};
ghost use Rattle.zpl_arrays.specs.Reference.{dim_lies_in, is_reference};

use zpl_region::{Dim, Region, Vec3};

/// What stands for a dimension past the rank.
const PADDING: Dim = Dim::Range {
    lo: 0,
    hi: 0,
    step: 1,
    align: 0,
};

/// The region of rank 1 with this dimension.
fn line(dim: Dim) -> Region
    requires { IsDim dim }
    ensures line { result ≡ record { rank = 1; dims = dim ∷ padding ∷ padding ∷ [] } }
    ensures region { IsRegion result }
{
    Region {
        rank: 1,
        dims: [dim, PADDING, PADDING],
    }
}

/// Whether a dimension is a range with just one coordinate.
fn is_single(dim: Dim) -> bool
    requires { IsDim dim }
    ensures { result ≡ is_single dim }
{
    line(dim).single(1).is_some()
}

/// Whether two dimensions are the same set.
fn is_same_set(dim: Dim, other: Dim) -> bool
    requires mine { IsDim dim }
    requires theirs { IsDim other }
    ensures { result ≡ is_same_set dim other }
{
    line(dim).same_dim(&line(other), 1)
}

/// The component of a vector at `place`, counted from 0, for a region of this rank: 0 past it.
fn component(rank: u8, v: &Vec3, place: u8) -> i64
    requires { place < 3 }
    ensures { result ≡ slice_index_or (components rank v.now) place (pos 0) }
{
    if place < rank {
        v[usize::from(place)]
    } else {
        0
    }
}

/// Whether a border by the component `d` conforms in a dimension: where `d` isn't 0, it has step 1
/// and an extent of at least the size of `d`.
fn dim_border_conforms(d: i64, dim: Dim) -> bool
    requires { IsDim dim }
    ensures { result ≡ dim_border_conforms d dim }
{
    if d == 0 {
        return true;
    }
    let Dim::Range { lo, hi, step, .. } = dim else {
        return false;
    };
    step == 1 && d.unsigned_abs() <= (hi - lo + 1).max(0).unsigned_abs()
}

/// Whether a border statement on `d of R` conforms: in each dimension in which the component isn't
/// 0, R has step 1 and an extent of at least the component's size.
pub fn border_conforms(d: &Vec3, region: &Region) -> bool
    requires { IsRegion region.now }
    ensures { result ≡ border_conforms d.now region.now }
{
    let [planes, rows, columns] = region.dims;
    let along_planes = dim_border_conforms(component(region.rank, d, 0), planes);
    let along_rows = dim_border_conforms(component(region.rank, d, 1), rows);
    let along_columns = dim_border_conforms(component(region.rank, d, 2), columns);
    along_planes & along_rows & along_columns
}

/// Whether a partial reduction conforms in a dimension: the target is flood there or has a single
/// coordinate, or both are the same set.
fn dim_reduces(target: Dim, source: Dim) -> bool
    requires target { IsDim target }
    requires source { IsDim source }
    ensures { result ≡ (is_same_set source target || is_collapsed target) }
{
    match target {
        Dim::Flood => true,
        Dim::Range { .. } => is_same_set(source, target) | is_single(target),
    }
}

/// Whether `op<<[source]` conforms under the target: in each dimension the source has the target's
/// set, or the target is flood or has a single coordinate.
pub fn reduction_conforms(target: &Region, source: &Region) -> bool
    requires target { IsRegion target.now }
    requires source { IsRegion source.now }
    ensures { result ≡ reduction_conforms target.now source.now }
{
    let [planes, rows, columns] = target.dims;
    let [source_planes, source_rows, source_columns] = source.dims;
    let along_planes = dim_reduces(planes, source_planes);
    let along_rows = dim_reduces(rows, source_rows);
    let along_columns = dim_reduces(columns, source_columns);
    along_planes & along_rows & along_columns
}

/// Whether a flood conforms in a dimension: the source has a single coordinate there, or both are
/// the same set.
fn dim_spreads(target: Dim, source: Dim) -> bool
    requires target { IsDim target }
    requires source { IsDim source }
    ensures { result ≡ (is_single source || is_same_set source target) }
{
    is_single(source) | is_same_set(source, target)
}

/// Whether `>>[source]` conforms under the target: in each dimension the source has a single
/// coordinate, or the target's set.
pub fn flood_conforms(target: &Region, source: &Region) -> bool
    requires target { IsRegion target.now }
    requires source { IsRegion source.now }
    ensures { result ≡ flood_conforms target.now source.now }
{
    let [planes, rows, columns] = target.dims;
    let [source_planes, source_rows, source_columns] = source.dims;
    let along_planes = dim_spreads(planes, source_planes);
    let along_rows = dim_spreads(rows, source_rows);
    let along_columns = dim_spreads(columns, source_columns);
    along_planes & along_rows & along_columns
}

/// Whether a dimension with these first and last coordinates, moved by `d`, lies in `storage`.
fn dim_lies_in(dim: Dim, first: i64, last: i64, d: i64, storage: Dim) -> bool
    requires dim { IsDim dim }
    requires some { 0 < coordinate_count dim }
    requires first { first ≡ first_of dim }
    requires last { last ≡ last_of dim }
    requires storage { IsDim storage }
    ensures { result ≡ dim_lies_in (dim_moved d dim) storage }
{
    let Dim::Range { lo, hi, .. } = storage else {
        return true;
    };
    match dim {
        Dim::Range { .. } => lo - first <= d && d <= hi - last,
        Dim::Flood => false,
    }
}

/// Whether the reference `A@shift` under the region lies in A's storage: all tuples of the region,
/// moved by the shift, lie within the storage's bounds, its flood dimensions aside.
pub fn is_reference(shift: &Vec3, region: &Region, storage: &Region) -> bool
    requires region { IsRegion region.now }
    requires storage { IsRegion storage.now }
    ensures { result ≡ is_reference shift.now region.now storage.now }
{
    let Some(first) = region.least() else {
        return true;
    };
    let Some(last) = region.greatest() else {
        return true;
    };
    let [planes, rows, columns] = region.dims;
    let [plane_room, row_room, column_room] = storage.dims;
    let x = component(region.rank, shift, 0);
    let y = component(region.rank, shift, 1);
    let z = component(region.rank, shift, 2);
    let along_planes = dim_lies_in(planes, first[0], last[0], x, plane_room);
    let along_rows = dim_lies_in(rows, first[1], last[1], y, row_room);
    let along_columns = dim_lies_in(columns, first[2], last[2], z, column_room);
    along_planes & along_rows & along_columns
}
