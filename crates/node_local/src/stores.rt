//! The places of an array that a processor holds, with their values in one vector.
ghost use Rattle.std.specs.Prelude.{◌≡◌, ◌<◌, ◌*◌, ◌+◌, ◌+ℤ◌, ◌^◌, length, All, IfOk, IfSome};
ghost use Rattle.std.specs.Prelude.{[], ◌∷◌, drop, map, pos, replicate, slice_get, slice_set, true};
ghost use Rattle.std.specs.Prelude.{IsTrue};
ghost use Rattle.grid_meaning.specs.of_zpl_region.Ends.{coordinate_count, tuple_count};
ghost use Rattle.grid_meaning.specs.of_zpl_region.Hull.{IsBoxed};
ghost use Rattle.grid_meaning.specs.of_zpl_arrays.Array.{each_has_place, place_along, place_among};
ghost use Rattle.grid_meaning.specs.of_grid_layout.Layout.{HasWideBounds};
ghost use Rattle.grid_meaning.specs.Place.{moved_by, where_held, held_value};
ghost use Rattle.grid_meaning.specs.Room.{zeros_at};
ghost use Rattle.node_local.specs.Reading.{boxed_value, is_flat, is_flat_coordinate};
ghost use Rattle.node_local.specs.Store.{IsFlat, StandsFor, place_in};

use grid_meaning::grid_layout::size;
use grid_meaning::zpl_region::{Dim, Region, Vec3};
use std::alloc::{AllocError, Global};
use std::marker::Model;

/// The greatest bound that a box may have, and the least one with the sign turned.
const FARTHEST: i64 = 1 << 41;

/// By as much, with either sign, a coordinate is moved without a test of the sum.
const SHORT: i64 = 1 << 29;

/// The places of an array that a processor holds, and their values in row-major order.
///
/// The places are a box: the value of a tuple is found by arithmetic on its bounds. How many
/// coordinates its second and third dimension have is found beforehand.
#[derive(Debug, Drop)]
pub(crate) struct FlatStore {
    shape: Region,
    rows: usize,
    columns: usize,
    values: Vec<i64>,
}

impl Model for FlatStore {
    ghost use Rattle.grid_meaning.specs.of_zpl_arrays.Array.{Array};

    ghost Value = { Array };

    ghost view = { λ store. record { storage = store.shape; values = store.values.items } };

    ghost use Rattle.node_local.specs.Store.{IsFlat};

    ghost invariant = { λ store. IsFlat store.shape store.rows store.columns store.values.items };
}

/// How many tuples a box has.
fn tuples(dims: &[Dim; 3]) -> u128
    requires boxed { All IsBoxed dims.now }
    requires bounds { All HasWideBounds dims.now }
    ensures { result ≡ tuple_count dims.now }
{
    let [planes, rows, columns] = *dims;
    u128::from(size(planes)) * u128::from(size(rows)) * u128::from(size(columns))
}

/// Whether a dimension is one of a box, with bounds from -2^41 to 2^41.
fn is_boxed(dim: Dim) -> bool
    ensures { IsTrue result → IsBoxed dim × HasWideBounds dim }
{
    match dim {
        Dim::Range {
            lo,
            hi,
            step,
            align,
        } => {
            step == 1
                && align == lo
                && -FARTHEST <= lo
                && lo <= FARTHEST
                && -FARTHEST <= hi
                && hi <= FARTHEST
        }
        Dim::Flood => true,
    }
}

/// Whether the region is a box.
fn is_box(dims: &[Dim; 3]) -> bool
    ensures boxed { IsTrue result → All IsBoxed dims.now }
    ensures bounds { IsTrue result → All HasWideBounds dims.now }
{
    let [planes, rows, columns] = *dims;
    is_boxed(planes) && is_boxed(rows) && is_boxed(columns)
}

/// The place of a coordinate among those of a dimension of a box; `None` where it has none. All
/// coordinates have the one place of a flood dimension.
#[inline(always)]
fn place_along(dim: &Dim, x: i64) -> Option<usize>
    requires boxed { IsBoxed dim.now }
    requires bounds { HasWideBounds dim.now }
    ensures place { result
        ≡ where_held (each_has_place (dim.now ∷ []) (x ∷ [])) (place_along dim.now x) }
    ensures below { IfSome result (λ place. place < coordinate_count dim.now) }
{
    match *dim {
        Dim::Range { lo, hi, .. } => {
            if lo <= x && x <= hi {
                Some(x.abs_diff(lo) as usize)
            } else {
                None
            }
        }
        Dim::Flood => Some(0),
    }
}

/// The place of a tuple in the row-major order of a box, with so many coordinates in its second and
/// third dimension; `None` where it has none.
#[inline(always)]
fn place_among(
    dims: &[Dim; 3],
    rows: usize,
    columns: usize,
    x: i64,
    y: i64,
    z: i64,
) -> Option<usize>
    requires boxed { All IsBoxed dims.now }
    requires bounds { All HasWideBounds dims.now }
    requires few { tuple_count dims.now < 2 ^ 64 }
    requires counted { map coordinate_count (drop 1 dims.now) ≡ rows ∷ columns ∷ [] }
    ensures place { result ≡ where_held (each_has_place dims.now (x ∷ y ∷ z ∷ []))
        (place_among dims.now (x ∷ y ∷ z ∷ [])) }
    ensures below { IfSome result (λ place. place < tuple_count dims.now) }
{
    let plane = place_along(&dims[0], x)?;
    let row = place_along(&dims[1], y)?;
    let column = place_along(&dims[2], z)?;
    Some((plane * rows + row) * columns + column)
}

/// A coordinate moved by a number, as far as boxes tell: where their bounds don't reach, another
/// number may stand for the sum that they don't reach either.
fn moved(x: i64, shift: i64) -> i64
    ensures { StandsFor result (x +ℤ shift) }
{
    if -SHORT <= shift && shift <= SHORT {
        x.wrapping_add(shift)
    } else {
        x.saturating_add(shift)
    }
}

/// Whether the coordinate is 0 where the dimension is flood.
fn is_flat_coordinate(dim: Dim, x: i64) -> bool
    ensures { result ≡ is_flat_coordinate dim x }
{
    match dim {
        Dim::Range { .. } => true,
        Dim::Flood => x == 0,
    }
}

/// Whether a tuple has 0 in each flood dimension.
fn is_flat(dims: &[Dim; 3], x: &Vec3) -> bool
    ensures { result ≡ is_flat dims.now x.now }
{
    let [planes, rows, columns] = *dims;
    let [a, b, c] = *x;
    let plane = is_flat_coordinate(planes, a);
    let row = is_flat_coordinate(rows, b);
    let column = is_flat_coordinate(columns, c);
    plane & (row & column)
}

/// Sets all values of a row to 0.
fn clear(values: &mut [i64])
    ensures { values.new ≡ replicate (length values.old) (pos 0) }
{
    for value in values.iter_mut() {
        *value = 0;
    }
}

/// Puts a value at a place of a row, if there is such a place.
pub(crate) fn put_back(values: &mut [i64], place: usize, value: i64)
    ensures { values.new ≡ slice_set values.old place value }
{
    if place < values.len() {
        values[place] = value;
    }
}

impl FlatStore {
    /// The store of a box, with these values in row-major order.
    fn of_box(shape: Region, values: Vec<i64>) -> FlatStore
        requires boxed { All IsBoxed shape.dims }
        requires bounds { All HasWideBounds shape.dims }
        requires filled { length values.items ≡ tuple_count shape.dims }
        ensures { result ≡ record { storage = shape; values = values.items } }
    {
        let [_, rows, columns] = shape.dims;
        FlatStore {
            shape,
            rows: size(rows) as usize,
            columns: size(columns) as usize,
            values,
        }
    }

    /// A store with 0 at each of these places.
    pub(crate) fn zeros(alloc: Global, shape: Region) -> Result<FlatStore, AllocError>
        requires boxed { All IsBoxed shape.dims }
        requires bounds { All HasWideBounds shape.dims }
        ensures { IfOk result (λ store. store ≡ zeros_at shape) }
    {
        let Ok(many) = usize::try_from(tuples(&shape.dims)) else {
            return Err(AllocError);
        };
        let values = vec![in alloc; 0; many]?;
        Ok(FlatStore::of_box(shape, values))
    }

    /// The store of these places, with these values in row-major order; `None` where the places are
    /// no box, or there isn't a value for each.
    pub(crate) fn of(shape: Region, values: Vec<i64>) -> Option<FlatStore>
        ensures { IfSome result (λ store.
            store ≡ record { storage = shape; values = values.items }) }
    {
        if is_box(&shape.dims) && tuples(&shape.dims) == values.len() as u128 {
            Some(FlatStore::of_box(shape, values))
        } else {
            None
        }
    }

    /// The places.
    pub(crate) fn shape(&self) -> Region
        ensures { result ≡ self.now.storage }
    {
        self.shape
    }

    /// Where the value of a tuple stands; `None` where it has no place.
    #[inline(always)]
    pub(crate) fn place(&self, index: &Vec3) -> Option<usize>
        ensures place { result ≡ place_in self.now.storage index.now }
        ensures below { IfSome result (λ place. place < length self.now.values) }
    {
        let _values = &self.values;
        let [x, y, z] = *index;
        place_among(&self.shape.dims, self.rows, self.columns, x, y, z)
    }

    /// The value at a tuple; `None` where it has no place.
    #[inline(always)]
    pub(crate) fn value_at(&self, index: &Vec3) -> Option<i64>
        ensures { result ≡ held_value index.now self.now }
    {
        let place = self.place(index)?;
        Some(self.values[place])
    }

    /// The value at a tuple with these coordinates; `None` where it has no place.
    fn value_of(&self, x: i64, y: i64, z: i64) -> Option<i64>
        ensures { result ≡ held_value (x ∷ y ∷ z ∷ []) self.now }
    {
        let place = place_among(&self.shape.dims, self.rows, self.columns, x, y, z)?;
        Some(self.values[place])
    }

    /// The value at a tuple moved by a vector; `None` where it has no place. A coordinate past the
    /// bounds that a box may have is in no range.
    pub(crate) fn value_beside(&self, index: &Vec3, shift: Vec3) -> Option<i64>
        ensures { result ≡ held_value (moved_by shift index.now) self.now }
    {
        let [x, y, z] = *index;
        let [a, b, c] = shift;
        let _shape = &self.shape;
        self.value_of(moved(x, a), moved(y, b), moved(z, c))
    }

    /// The value at a tuple of the box; `None` where the tuple isn't one.
    pub(crate) fn boxed_value(&self, x: &Vec3) -> Option<i64>
        ensures { result ≡ boxed_value x.now self.now }
    {
        if is_flat(&self.shape.dims, x) {
            self.value_at(x)
        } else {
            None
        }
    }

    /// Puts a value at a place of the row, and gives the one that was there.
    pub(crate) fn replace(&mut self, place: usize, value: i64) -> i64
        requires { place < length self.old.values }
        ensures old { slice_get self.old.values place ≡ Some result }
        ensures new { self.new ≡ record self.old {
          values = slice_set self.old.values place value;
        } }
    {
        let old = self.values[place];
        self.values[place] = value;
        old
    }

    /// Puts a value at a place of the row, if there is such a place.
    pub(crate) fn put_back(&mut self, place: usize, value: i64)
        ensures { self.new ≡ record self.old {
          values = slice_set self.old.values place value;
        } }
    {
        put_back(self.values.as_mut_slice(), place, value);
    }

    /// Sets all values to 0.
    pub(crate) fn clear(&mut self)
        ensures { self.new ≡ zeros_at self.old.storage }
    {
        clear(self.values.as_mut_slice());
    }
}
