//! The lines of arrays.
ghost use Rattle.std.specs.Prelude.{◌≡◌, ◌<◌, ◌≤◌, ◌≤ℤ◌, ◌⊎◌, ◌↔◌, All, IfOk, IfSome, IsTrue, Some};
ghost use Rattle.std.specs.Prelude.{false, get_or, length, map, pos, take, true};
ghost use Rattle.std.specs.Option.{option_map};
ghost use Rattle.zpl_region.specs.Ends.{coordinate_count, tuple_count};
ghost use Rattle.zpl_region.specs.Hull.{IsBoxed};
ghost use Rattle.zpl_region.specs.Region.{IsPadded, members, padding};
ghost use Rattle.zpl_region.specs.declared.regions.Region.{Region as Tuples};
ghost use Rattle.zpl_arrays.specs.Array.{Array as Values};
ghost use Rattle.grid_layout.specs.Grid.{processors_of};
ghost use Rattle.grid_layout.specs.Layout.{HasWideBounds, IsArrayBox, held_of, laid_out};
ghost use Rattle.node_form.specs.Fits.{FitsArray};
ghost use Rattle.grid_meaning.specs.Local.{processors};
ghost use Rattle.grid_meaning.specs.State.{ArePlaces, AreRoomIn, IsRoom, IsRoomIn};
ghost use Rattle.grid_meaning.specs.Stored.{arrangement_of, box_of, width_above, width_below};
ghost use Rattle.node_local.specs.Standing.{array_in};
ghost use Rattle.grid_save.specs.Reads.{IsStoreLine};
ghost use Rattle.grid_save.specs.Written.{box_dim};
ghost use Rattle.save_reading.specs.Box.{box_with, side_of};

use crate::slots::PADDING;
use grid_layout::{ArrayBox, Layout, size};
use grid_links::Words;
use node_form::{ArrayDim, ArrayRow, Row, Tables, storage_dim};
use node_local::{Store, no_places};
use save_lines::{BoxDim, SavedLine};
use std::alloc::{AllocError, Global};
use zpl_region::{Dim, Region, Vec3};

// ---- what a processor holds of a stored array

/// How far beyond its own block a processor holds a dimension.
fn widths(dim: ArrayDim) -> (i64, i64)
    ensures below { result.0 ≡ width_below dim }
    ensures above { result.1 ≡ width_above dim }
{
    match dim {
        ArrayDim::Range { low, high, .. } => (low, high),
        ArrayDim::Star => (0, 0),
    }
}

/// A stored array as layouts have it.
fn box_of(row: &ArrayRow) -> ArrayBox
    requires fits { FitsArray row.now }
    requires stored { row.now.stored ≡ true }
    ensures same { result ≡ box_of row.now }
    ensures sound { IsArrayBox result }
{
    let [planes, rows, columns] = row.dims;
    let (low_planes, high_planes) = widths(planes);
    let (low_rows, high_rows) = widths(rows);
    let (low_columns, high_columns) = widths(columns);
    ArrayBox {
        shape: Region {
            rank: row.rank,
            dims: [storage_dim(planes), storage_dim(rows), storage_dim(columns)],
        },
        low: [low_planes, low_rows, low_columns],
        high: [high_planes, high_rows, high_columns],
    }
}

/// Whether the side of a box is this dimension's.
fn is_side(side: BoxDim, dim: Dim) -> bool
    ensures { IsTrue result ↔ (side ≡ box_dim dim) }
{
    match dim {
        Dim::Range { lo, hi, .. } => match side {
            BoxDim::Range(from, to) => from == lo && to == hi,
            BoxDim::Star => false,
        },
        Dim::Flood => matches!(side, BoxDim::Star),
    }
}

/// Whether the sides of a box are these dimensions'.
fn are_sides(sides: &[BoxDim], dims: &[Dim]) -> bool
    ensures { IsTrue result ↔ (sides.now ≡ map box_dim dims.now) }
{
    if sides.len() != dims.len() {
        return false;
    }
    for i in 0..sides.len() {
        if !is_side(sides[i], dims[i]) {
            return false;
        }
    }
    true
}

/// As many of three dimensions, from the first one on, as the rank says.
fn front(rank: u8, dims: &[Dim; 3]) -> &[Dim]
    ensures { result.now ≡ take rank dims.now }
{
    &dims[..usize::from(rank).min(3)]
}

/// What a processor holds of an array.
fn held_box(layout: &Layout, array: &ArrayBox, p: u32) -> Region
    requires array { IsArrayBox array.now }
    requires processor { p < processors_of layout.now.grid }
    ensures held { result ≡ held_of (laid_out layout.now) array.now p }
    ensures boxed { All IsBoxed result.dims }
    ensures bounds { All HasWideBounds result.dims }
{
    layout.blocks().held(array, p)
}

/// What the processor holds of a stored array, if it has these sides.
fn held_places(
    _code: &Tables,
    layout: &Layout,
    p: u32,
    row: &ArrayRow,
    sides: &[BoxDim],
) -> Option<Region>
    requires layout { layout.now ≡ arrangement_of _code.now }
    requires processor { p < processors _code.now }
    requires fits { FitsArray row.now }
    requires stored { row.now.stored ≡ true }
    ensures found { (places : Tuples) → ArePlaces _code.now p row.now true places → sides.now
        ≡ map box_dim (take places.rank places.dims) → result ≡ Some places }
    ensures right { IfSome result (λ places. ArePlaces _code.now p row.now true places
        × (sides.now ≡ map box_dim (take places.rank places.dims))) }
    ensures boxed { IfSome result (λ places. All IsBoxed places.dims) }
    ensures bounds { IfSome result (λ places. All HasWideBounds places.dims) }
{
    let array = box_of(row);
    let held = held_box(layout, &array, p);
    if are_sides(sides, front(held.rank, &held.dims)) {
        Some(held)
    } else {
        None
    }
}

// ---- the places of a temporary

/// The dimension with this side; past the last one, what stands for it.
fn side_at(sides: &[BoxDim], i: usize) -> Dim
    ensures { result ≡ get_or (map side_of sides.now) i padding }
{
    match sides.get(i) {
        Some(BoxDim::Range(lo, hi)) => Dim::Range {
            lo: *lo,
            hi: *hi,
            step: 1,
            align: *lo,
        },
        Some(BoxDim::Star) => Dim::Flood,
        None => PADDING,
    }
}

/// The box with these sides.
fn box_with(rank: u8, sides: &[BoxDim]) -> Region
    requires many { length sides.now ≡ rank }
    requires few { rank ≤ 3 }
    ensures same { result ≡ box_with rank sides.now }
    ensures boxed { All IsBoxed result.dims }
{
    Region {
        rank,
        dims: [side_at(sides, 0), side_at(sides, 1), side_at(sides, 2)],
    }
}

fn has_some(dim: Dim) -> bool
    requires { IsBoxed dim }
    ensures { IsTrue result ↔ (0 < coordinate_count dim) }
{
    match dim {
        Dim::Range { lo, hi, .. } => lo <= hi,
        Dim::Flood => true,
    }
}

/// Whether bounds lie between others, or both are 0.
fn lie_between(low: i64, high: i64, lo: i64, hi: i64) -> bool
    ensures { IsTrue result ↔ (((lo ≡ pos 0) × (hi ≡ pos 0)) ⊎ ((low ≤ℤ lo) × (hi ≤ℤ high))) }
{
    (lo == 0 && hi == 0) || (low <= lo && hi <= high)
}

/// Whether a temporary may have this dimension, between these bounds of the own block.
fn is_room_in(row: ArrayDim, low: i64, high: i64, dim: Dim) -> bool
    requires { IsBoxed dim }
    ensures { IsTrue result ↔ IsRoomIn row low high dim }
{
    match row {
        ArrayDim::Range { .. } => match dim {
            Dim::Range { lo, hi, .. } => lie_between(low, high, lo, hi),
            Dim::Flood => false,
        },
        ArrayDim::Star => matches!(dim, Dim::Flood),
    }
}

/// Whether a temporary may have these dimensions, between these bounds of the own block.
fn are_room_in(rows: &[ArrayDim; 3], low: &Vec3, high: &Vec3, dims: &[Dim; 3]) -> bool
    requires { All IsBoxed dims.now }
    ensures room { IsTrue result ↔ AreRoomIn rows.now low.now high.now dims.now }
    ensures rows { length rows.now ≡ 3 }
    ensures lows { length low.now ≡ 3 }
    ensures highs { length high.now ≡ 3 }
    ensures dims { length dims.now ≡ 3 }
{
    let [planes, rows, columns] = *rows;
    let [low_planes, low_rows, low_columns] = *low;
    let [high_planes, high_rows, high_columns] = *high;
    let [a, b, c] = *dims;
    let first = is_room_in(planes, low_planes, high_planes, a);
    let second = is_room_in(rows, low_rows, high_rows, b);
    let third = is_room_in(columns, low_columns, high_columns, c);
    first & second & third
}

/// Whether a box has some tuple.
fn have_some(dims: &[Dim; 3]) -> bool
    requires { All IsBoxed dims.now }
    ensures { IsTrue result ↔ (0 < tuple_count dims.now) }
{
    let [a, b, c] = *dims;
    let first = has_some(a);
    let second = has_some(b);
    let third = has_some(c);
    first & second & third
}

/// Whether a temporary may have these places, of which there are some.
fn is_room(_code: &Tables, layout: &Layout, p: u32, row: &ArrayRow, places: &Region) -> bool
    requires layout { layout.now ≡ arrangement_of _code.now }
    requires processor { p < processors _code.now }
    requires fits { FitsArray row.now }
    requires ranked { places.now.rank ≡ row.now.rank }
    requires padded { IsPadded places.now.rank places.now.dims }
    requires boxed { All IsBoxed places.now.dims }
    ensures room { IsTrue result ↔ IsRoom _code.now p row.now places.now }
    ensures boxes { (other : Tuples) → IsRoom _code.now p row.now other → All IsBoxed other.dims }
    ensures bounds { IsTrue result → All HasWideBounds places.now.dims }
{
    let (low, high) = layout.own_block(row.rank, p);
    let within = are_room_in(&row.dims, &low, &high, &places.dims);
    let some = have_some(&places.dims);
    within & some
}

/// The places of a temporary with these sides, if it may have them.
fn room_places(
    _code: &Tables,
    layout: &Layout,
    p: u32,
    row: &ArrayRow,
    sides: &[BoxDim],
) -> Option<Region>
    requires layout { layout.now ≡ arrangement_of _code.now }
    requires processor { p < processors _code.now }
    requires fits { FitsArray row.now }
    ensures found { (places : Tuples) → ArePlaces _code.now p row.now false places → sides.now
        ≡ map box_dim (take places.rank places.dims) → result ≡ Some places }
    ensures right { IfSome result (λ places. ArePlaces _code.now p row.now false places
        × (sides.now ≡ map box_dim (take places.rank places.dims))) }
    ensures boxed { IfSome result (λ places. All IsBoxed places.dims) }
    ensures bounds { IfSome result (λ places. All HasWideBounds places.dims) }
{
    if sides.len() != usize::from(row.rank) {
        return None;
    }
    let none = no_places(row.rank);
    if are_sides(sides, front(none.rank, &none.dims)) {
        return Some(none);
    }
    let places = box_with(row.rank, sides);
    if is_room(_code, layout, p, row, &places) {
        Some(places)
    } else {
        None
    }
}

// ---- values

/// How many tuples a box has.
fn tuples(dims: &[Dim; 3]) -> u128
    requires boxed { All IsBoxed dims.now }
    requires bounds { All HasWideBounds dims.now }
    ensures { result ≡ tuple_count dims.now }
{
    let [planes, rows, columns] = *dims;
    u128::from(size(planes)) * u128::from(size(rows)) * u128::from(size(columns))
}

/// The store with these places and values, if there is a value for each place.
fn store_with(alloc: Global, places: Region, values: &Row<i64>) -> Result<Option<Store>, AllocError>
    requires boxed { All IsBoxed places.dims }
    requires bounds { All HasWideBounds places.dims }
    ensures found { IfOk result (λ found. length values.now ≡ length (members places) →
        option_map array_in found ≡ Some (record { storage = places; values = values.now })) }
    ensures right { IfOk result (λ found. IfSome found (λ store.
        (array_in store ≡ record { storage = places; values = values.now })
        × (length values.now ≡ length (members places)))) }
{
    let values = values.as_slice();
    if tuples(&places.dims) != values.len() as u128 {
        return Ok(None);
    }
    Ok(Some(Store {
        shape: places,
        values: Words::of(Vec::from_slice(alloc, values)?),
    }))
}

/// The places of an array with these sides, if it may have them.
fn places_of(
    code: &Tables,
    layout: &Layout,
    p: u32,
    row: &ArrayRow,
    sides: &[BoxDim],
) -> Option<Region>
    requires layout { layout.now ≡ arrangement_of code.now }
    requires processor { p < processors code.now }
    requires fits { FitsArray row.now }
    ensures found { (places : Tuples) → ArePlaces code.now p row.now row.now.stored places →
        sides.now ≡ map box_dim (take places.rank places.dims) → result ≡ Some places }
    ensures right { IfSome result (λ places. ArePlaces code.now p row.now row.now.stored places
        × (sides.now ≡ map box_dim (take places.rank places.dims))) }
    ensures boxed { IfSome result (λ places. All IsBoxed places.dims) }
    ensures bounds { IfSome result (λ places. All HasWideBounds places.dims) }
{
    if row.stored {
        held_places(code, layout, p, row, sides)
    } else {
        room_places(code, layout, p, row, sides)
    }
}

/// The store that this line tells.
pub(crate) fn read_store(
    alloc: Global,
    code: &Tables,
    layout: &Layout,
    p: u32,
    row: &ArrayRow,
    line: &SavedLine,
) -> Result<Option<Store>, AllocError>
    requires layout { layout.now ≡ arrangement_of code.now }
    requires processor { p < processors code.now }
    requires fits { FitsArray row.now }
    ensures found { IfOk result (λ found. (store : Values) →
        IsStoreLine code.now p row.now line.now store → option_map array_in found ≡ Some store) }
    ensures right { IfOk result (λ found. IfSome found (λ store.
        IsStoreLine code.now p row.now line.now (array_in store))) }
{
    let SavedLine::Store(sides, values) = line else {
        return Ok(None);
    };
    match places_of(code, layout, p, row, sides.as_slice()) {
        Some(places) => store_with(alloc, places, values),
        None => Ok(None),
    }
}
