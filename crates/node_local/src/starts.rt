//! What a processor has before its first turn.
ghost use Rattle.std.specs.Prelude.{◌≡◌, ◌<◌, ◌≤◌, length, map, All, IfOk, true, pos};
ghost use Rattle.grid_meaning.specs.of_zpl_region.Hull.{IsBoxed, all_from};
ghost use Rattle.grid_meaning.specs.of_zpl_arrays.Array.{array_of};
ghost use Rattle.grid_meaning.specs.of_grid_layout.Grid.{processors_of};
ghost use Rattle.grid_meaning.specs.of_grid_layout.Layout.{HasWideBounds, IsArrayBox, laid_out};
ghost use Rattle.grid_meaning.specs.Local.{processors, start_places};
ghost use Rattle.grid_meaning.specs.Stored.{arrangement_of, box_of, no_places};
ghost use Rattle.grid_meaning.specs.of_node_form.Fits.{Fits};
ghost use Rattle.grid_meaning.specs.Stored.{width_above, width_below};
ghost use Rattle.node_local.specs.Standing.{array_in};

use crate::standings::Store;
use crate::stores::FlatStore;
use grid_meaning::grid_layout::{ArrayBox, Layout};
use grid_meaning::node_form::{ArrayDim, ArrayRow, Tables, rows_fit, storage_dim};
use grid_meaning::zpl_region::{Dim, Region};
use std::alloc::{AllocError, Global};

/// A number of words that no expression exceeds: that of the longest one.
pub(crate) fn longest_expression(code: &Tables) -> usize
    ensures { All (λ words. length words ≤ result) code.now.exprs }
{
    let mut longest = 0;
    for i in 0..code.exprs.len() {
        longest = longest.max(code.exprs.get(i).unwrap().as_slice().len());
    }
    longest
}

/// A number of members that no group exceeds: that of the longest one.
pub(crate) fn longest_group(code: &Tables) -> usize
    ensures { All (λ members. length members ≤ result) code.now.groups }
{
    let mut longest = 0;
    for i in 0..code.groups.len() {
        longest = longest.max(code.groups.get(i).unwrap().as_slice().len());
    }
    longest
}

/// The numbers from `lo` to `hi`.
fn all_from(lo: i64, hi: i64) -> Dim
    ensures { result ≡ all_from lo hi }
{
    Dim::Range {
        lo,
        hi,
        step: 1,
        align: lo,
    }
}

/// The region of a rank that has no tuples: `1..0` in each dimension.
pub fn no_places(rank: u8) -> Region
    requires above { 1 ≤ rank }
    requires below { rank ≤ 3 }
    ensures places { result ≡ no_places rank }
    ensures boxed { All IsBoxed result.dims }
    ensures bounds { All HasWideBounds result.dims }
{
    let none = all_from(1, 0);
    let past = all_from(0, 0);
    Region {
        rank,
        dims: [
            none,
            if rank > 1 { none } else { past },
            if rank > 2 { none } else { past },
        ],
    }
}

/// The regions of slots at the start.
pub(crate) fn start_slots(alloc: Global, code: &Tables) -> Result<Vec<Region>, AllocError>
    requires { Fits code.now }
    ensures { IfOk result (λ slots. slots.items ≡ map no_places code.now.slots) }
{
    rows_fit();
    let mut slots = Vec::new(alloc);
    for i in 0..code.slots.len() {
        slots.push(no_places(*code.slots.get(i).unwrap()))?;
    }
    Ok(slots)
}

/// How far beyond its own block a processor holds a dimension.
fn widths(dim: ArrayDim) -> (i64, i64)
    ensures below { result.0 ≡ width_below dim }
    ensures above { result.1 ≡ width_above dim }
{
    match dim {
        ArrayDim::Range { low, high, .. } => (low, high),
        ArrayDim::Star => (0, 0),
    }
}

/// A stored array as layouts have it.
fn box_of(row: &ArrayRow) -> ArrayBox
    ensures { result ≡ box_of row.now }
{
    let [planes, rows, columns] = row.dims;
    let (low_planes, high_planes) = widths(planes);
    let (low_rows, high_rows) = widths(rows);
    let (low_columns, high_columns) = widths(columns);
    ArrayBox {
        shape: Region {
            rank: row.rank,
            dims: [storage_dim(planes), storage_dim(rows), storage_dim(columns)],
        },
        low: [low_planes, low_rows, low_columns],
        high: [high_planes, high_rows, high_columns],
    }
}

/// The store of an array at the start: its held box with zeros, or no places for a temporary.
fn start_store(
    alloc: Global,
    row: &ArrayRow,
    layout: &Layout,
    p: u32,
) -> Result<FlatStore, AllocError>
    requires above { 1 ≤ row.now.rank }
    requires below { row.now.rank ≤ 3 }
    requires array { row.now.stored ≡ true → IsArrayBox (box_of row.now) }
    requires processor { p < processors_of layout.now.grid }
    ensures { IfOk result (λ store. store
        ≡ array_of (start_places (laid_out layout.now) p row.now row.now.stored) (λ t. pos 0)) }
{
    let shape = if row.stored {
        layout.blocks().held(&box_of(row), p)
    } else {
        no_places(row.rank)
    };
    FlatStore::zeros(alloc, shape)
}

/// The stores of a program's arrays at the start.
pub(crate) fn start_stores(
    alloc: Global,
    code: &Tables,
    layout: &Layout,
    p: u32,
) -> Result<Vec<FlatStore>, AllocError>
    requires fits { Fits code.now }
    requires layout { layout.now ≡ arrangement_of code.now }
    requires processor { p < processors code.now }
    ensures { IfOk result (λ stores. stores.items ≡ map (λ row.
        array_of (start_places (laid_out (arrangement_of code.now)) p row row.stored) (λ t. pos 0))
        code.now.arrays) }
{
    rows_fit();
    let _blocks = layout.blocks();
    let mut stores = Vec::new(alloc);
    for i in 0..code.arrays.len() {
        let store = start_store(alloc, code.arrays.get(i).unwrap(), layout, p)?;
        stores.push(store)?;
    }
    Ok(stores)
}

/// Stores as they were told.
pub(crate) fn told_stores(alloc: Global, told: &[Store]) -> Result<Vec<FlatStore>, AllocError>
    ensures { IfOk result (λ stores. stores.items ≡ map array_in told.now) }
{
    let mut stores = Vec::new(alloc);
    for store in told {
        let values = store.values.as_slice().to_vec(alloc)?;
        let Some(store) = FlatStore::of(store.shape, values) else {
            return Err(AllocError);
        };
        stores.push(store)?;
    }
    Ok(stores)
}
