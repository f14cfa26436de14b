//! The temporaries that a program wants: one of each kind, by rank and flood dimensions.
ghost use Rattle.std.specs.Prelude.{◌≡◌, IfOk, OnOk, position};
ghost use Rattle.std.specs.List.{list_any};
ghost use Rattle.temp_norm.specs.Normalised.{is_like, is_same_kind, place_among, temporaries};
ghost use Rattle.temp_norm.specs.Normalised.{temporary_like, with_one_like, without_storage};
ghost use Rattle.temp_norm.specs.Pieces.{kind_through, with_kind};

use crate::reads::self_put;
use flat_passes::node_form::{ArrayDim, ArrayRow, Instr, Tables};
use std::alloc::{AllocError, Global};

/// The temporaries, in the order in which the code wants them.
pub(crate) fn temporaries(alloc: Global, tables: &Tables) -> Result<Vec<ArrayRow>, AllocError>
    ensures { IfOk result (λ rows. rows.items ≡ temporaries tables.now) }
{
    let mut rows = Vec::new(alloc);
    for i in 0..tables.code.len() {
        let row = *tables.code.get(i).unwrap();
        add_kind(&mut rows, kind_through(tables, row))?;
    }
    Ok(rows)
}

/// The array whose values go through a temporary at this row, if there is one.
fn kind_through(tables: &Tables, row: Instr) -> Option<ArrayRow>
    ensures { result ≡ kind_through tables.now row }
{
    let Instr::Loop { group, .. } = row else {
        return None;
    };
    let members = tables.groups.get(u64::from(group))?;
    let put = self_put(tables, members.as_slice())?;
    tables.arrays.get(u64::from(put.array)).copied()
}

fn add_kind(rows: &mut Vec<ArrayRow>, kind: Option<ArrayRow>) -> Result<(), AllocError>
    ensures { OnOk result (rows.new.items ≡ with_kind rows.old.items kind) }
{
    match kind {
        Some(row) => add_one_like(rows, row),
        None => Ok(()),
    }
}

/// Adds a temporary for an array, unless there is one of its kind.
fn add_one_like(rows: &mut Vec<ArrayRow>, row: ArrayRow) -> Result<(), AllocError>
    ensures { OnOk result (rows.new.items ≡ with_one_like rows.old.items row) }
{
    if has_one_like(rows, row) {
        return Ok(());
    }
    rows.push(temporary_like(row))?;
    Ok(())
}

fn has_one_like(rows: &[ArrayRow], row: ArrayRow) -> bool
    ensures { result ≡ list_any (is_like row) rows.now }
{
    rows.iter().any(|other| is_like(row, other))
}

/// The place of the array's own temporary among these.
pub(crate) fn place_among(rows: &[ArrayRow], kind: Option<ArrayRow>) -> usize
    ensures { result ≡ place_among rows.now kind }
{
    match kind {
        Some(row) => place_like(rows, row),
        None => rows.len(),
    }
}

fn place_like(rows: &[ArrayRow], row: ArrayRow) -> usize
    ensures { result ≡ place_among rows.now (Some row) }
{
    find_like(rows, row).unwrap_or(rows.len())
}

fn find_like(rows: &[ArrayRow], row: ArrayRow) -> Option<usize>
    ensures { result ≡ position (is_like row) rows.now }
{
    rows.iter().position(|other| is_like(row, other))
}

/// A temporary for the values of an array.
fn temporary_like(row: ArrayRow) -> ArrayRow
    ensures { result ≡ temporary_like row }
{
    let [planes, rows, columns] = row.dims;
    ArrayRow {
        rank: row.rank,
        stored: false,
        dims: [
            without_storage(planes),
            without_storage(rows),
            without_storage(columns),
        ],
    }
}

fn without_storage(dim: ArrayDim) -> ArrayDim
    ensures { result ≡ without_storage dim }
{
    match dim {
        ArrayDim::Range { .. } => ArrayDim::Range {
            lo: 0,
            hi: 0,
            low: 0,
            high: 0,
        },
        ArrayDim::Star => ArrayDim::Star,
    }
}

/// Whether two arrays have one rank and the same flood dimensions.
fn is_like(row: ArrayRow, other: &ArrayRow) -> bool
    ensures { result ≡ is_like row other.now }
{
    let [planes, rows, columns] = row.dims;
    let [other_planes, other_rows, other_columns] = other.dims;
    row.rank == other.rank
        && is_same_kind(planes, other_planes)
        && is_same_kind(rows, other_rows)
        && is_same_kind(columns, other_columns)
}

fn is_same_kind(dim: ArrayDim, other: ArrayDim) -> bool
    ensures { result ≡ is_same_kind dim other }
{
    match dim {
        ArrayDim::Range { .. } => matches!(other, ArrayDim::Range { .. }),
        ArrayDim::Star => matches!(other, ArrayDim::Star),
    }
}
