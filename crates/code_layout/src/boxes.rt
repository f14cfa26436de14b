//! A program's stored arrays as layouts have them.
ghost use Rattle.std.specs.Prelude.{◌≡◌, ◌∷◌, ◌++◌, [], All, IfOk, OnOk, map, true};
ghost use Rattle.grid_layout.specs.Layout.{IsArrayBox};
ghost use Rattle.grid_meaning.specs.Stored.{box_of, stored, width_above, width_below};
ghost use Rattle.grid_meaning.specs.of_node_form.Fits.{Fits, FitsArray};

use grid_layout::ArrayBox;
use grid_meaning::node_form::{ArrayDim, ArrayRow, Tables, rows_fit, storage_dim};
use std::alloc::{AllocError, Global};
use zpl_region::Region;

/// The stored arrays, in their order.
pub(crate) fn boxes_of(alloc: Global, code: &Tables) -> Result<Vec<ArrayBox>, AllocError>
    requires { Fits code.now }
    ensures boxes { IfOk result (λ boxes. boxes.items ≡ map box_of (stored code.now.arrays)) }
    ensures sound { IfOk result (λ boxes. All IsArrayBox boxes.items) }
{
    rows_fit();
    let mut boxes = Vec::new(alloc);
    for i in 0..code.arrays.len() {
        push_box(&mut boxes, code.arrays.get(i).unwrap())?;
    }
    Ok(boxes)
}

/// Appends the array, if it is a stored one.
fn push_box(boxes: &mut Vec<ArrayBox>, row: &ArrayRow) -> Result<(), AllocError>
    requires fits { FitsArray row.now }
    requires sound { All IsArrayBox boxes.old.items }
    ensures pushed { OnOk result (boxes.new.items
        ≡ boxes.old.items ++ map box_of (stored (row.now ∷ []))) }
    ensures sound { OnOk result (All IsArrayBox boxes.new.items) }
{
    if row.stored {
        boxes.push(box_of(row))?;
    }
    Ok(())
}

/// A stored array.
fn box_of(row: &ArrayRow) -> ArrayBox
    requires fits { FitsArray row.now }
    requires stored { row.now.stored ≡ true }
    ensures same { result ≡ box_of row.now }
    ensures sound { IsArrayBox result }
{
    let [planes, rows, columns] = row.dims;
    let (low_planes, high_planes) = widths(planes);
    let (low_rows, high_rows) = widths(rows);
    let (low_columns, high_columns) = widths(columns);
    ArrayBox {
        shape: Region {
            rank: row.rank,
            dims: [storage_dim(planes), storage_dim(rows), storage_dim(columns)],
        },
        low: [low_planes, low_rows, low_columns],
        high: [high_planes, high_rows, high_columns],
    }
}

/// How far beyond its own block a processor holds a dimension.
fn widths(dim: ArrayDim) -> (i64, i64)
    ensures below { result.0 ≡ width_below dim }
    ensures above { result.1 ≡ width_above dim }
{
    match dim {
        ArrayDim::Range { low, high, .. } => (low, high),
        ArrayDim::Star => (0, 0),
    }
}
