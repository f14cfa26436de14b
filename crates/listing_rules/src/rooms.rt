//! The words of the arrays' held boxes.
ghost use Rattle.std.specs.Prelude.{◌≡◌, ◌+◌, ◌≤◌, ◌<◌, ◌^◌, All, IfErr, IfOk, OnOk, length, min};
ghost use Rattle.std.specs.Prelude.{sum_by, ◌++◌, ◌-◌};
ghost use Rattle.grid_layout.specs.Layout.{AreBlocks};
ghost use Rattle.grid_layout.specs.Words.{box_words};
ghost use Rattle.grid_meaning.specs.Stored.{box_of, width_above, width_below};
ghost use Rattle.node_form.specs.Fits.{FitsArray};
ghost use Rattle.node_form.specs.Grid.{IsGrid, factors_of};
ghost use Rattle.listing_rules.specs.Reads.{FaultAt};
ghost use Rattle.listing_rules.specs.Room.{
  HasRoom,
  HasThree,
  LacksRoom,
  blocks_for,
  boxes_of,
  stored_box,
};

use crate::faults::{ListFault, bad_table};
use grid_layout::{ArrayBox, Blocks, Grid};
use listing_rows::listing_lines::Line;
use node_form::{ArrayDim, ArrayRow, Grid3, Rows, Tables, storage_dim};
use std::alloc::{AllocError, Global};
use zpl_region::Region;

/// The most words that held boxes may have, on all processors together.
const STORAGE_LIMIT: u128 = 16_777_216;

/// How far below its own block a processor holds a dimension.
fn low_of(dim: ArrayDim) -> i64
    ensures { result ≡ width_below dim }
{
    match dim {
        ArrayDim::Range { low, .. } => low,
        ArrayDim::Star => 0,
    }
}

/// And how far above.
fn high_of(dim: ArrayDim) -> i64
    ensures { result ≡ width_above dim }
{
    match dim {
        ArrayDim::Range { high, .. } => high,
        ArrayDim::Star => 0,
    }
}

/// A stored array, as it is laid out.
fn box_of(row: &ArrayRow) -> ArrayBox
    ensures { result ≡ box_of row.now }
{
    let [planes, rows, columns] = row.dims;
    ArrayBox {
        shape: Region {
            rank: row.rank,
            dims: [storage_dim(planes), storage_dim(rows), storage_dim(columns)],
        },
        low: [low_of(planes), low_of(rows), low_of(columns)],
        high: [high_of(planes), high_of(rows), high_of(columns)],
    }
}

fn boxes_of(alloc: Global, tables: &Tables) -> Result<Vec<ArrayBox>, AllocError>
    ensures { IfOk result (λ boxes. boxes.items ≡ boxes_of tables.now.arrays) }
{
    let mut boxes = Vec::new(alloc);
    for i in 0..tables.arrays.len() {
        let row = tables.arrays.get(i).unwrap();
        push_box(&mut boxes, row)?;
    }
    Ok(boxes)
}

/// Appends the array as it is laid out, if it is a stored one.
fn push_box(boxes: &mut Vec<ArrayBox>, row: &ArrayRow) -> Result<(), AllocError>
    ensures { OnOk result (boxes.new.items
        ≡ boxes.old.items ++ stored_box row.now.stored row.now) }
{
    if row.stored {
        boxes.push(box_of(row))?;
    }
    Ok(())
}

/// The factors that aren't absent.
fn factors_of(grid: &Grid3) -> &[u32]
    ensures { result.now ≡ factors_of grid.now }
{
    let [first, second, third] = *grid;
    if first == 0 {
        return &grid[..0];
    }
    if second == 0 {
        return &grid[..1];
    }
    if third == 0 {
        return &grid[..2];
    }
    &grid[..3]
}

/// The grid with these factors.
fn grid_of(grid: &Grid3) -> Grid
    requires { IsGrid grid.now }
    ensures { result ≡ grid.now }
{
    Grid::new(factors_of(grid)).unwrap()
}

/// The blocks in which all stored arrays lie.
fn blocks_for(alloc: Global, tables: &Tables) -> Result<Blocks, AllocError>
    requires grid { IsGrid tables.now.grid }
    requires arrays { All FitsArray tables.now.arrays }
    requires three { All HasThree tables.now.arrays }
    ensures { IfOk result (λ blocks. (blocks ≡ blocks_for tables.now) × AreBlocks blocks) }
{
    let boxes = boxes_of(alloc, tables)?;
    Ok(Blocks::new(grid_of(&tables.grid), &boxes))
}

/// Whether the words of held boxes, up to and with each array, are within the limit. The line of
/// the first array has the place 5.
pub(crate) fn check_room(alloc: Global, tables: &Tables, lines: &[Line]) -> Result<(), ListFault>
    requires grid { IsGrid tables.now.grid }
    requires arrays { All FitsArray tables.now.arrays }
    requires three { All HasThree tables.now.arrays }
    requires few { length lines.now + 1 < 2 ^ 32 }
    requires inside { 5 + length tables.now.arrays ≤ length lines.now }
    ensures ok { OnOk result (HasRoom tables.now) }
    ensures err { IfErr result (FaultAt (LacksRoom lines.now tables.now) lines.now) }
{
    let blocks = blocks_for(alloc, tables)?;
    let mut words: u128 = 0;
    for i in 0..tables.arrays.len() {
        let row = tables.arrays.get(i).unwrap();
        words = words.saturating_add(words_of(&blocks, row));
        if words > STORAGE_LIMIT {
            return Err(bad_table(5 + i as usize));
        }
    }
    Ok(())
}

/// The words of an array's held boxes; a temporary has none.
fn words_of(blocks: &Blocks, row: &ArrayRow) -> u128
    requires blocks { AreBlocks blocks.now }
    requires row { FitsArray row.now }
    requires three { HasThree row.now }
    ensures { result ≡ min (sum_by (box_words blocks.now) (stored_box row.now.stored row.now))
        (2 ^ 128 - 1) }
{
    if row.stored {
        blocks.words(&box_of(row))
    } else {
        0
    }
}
