//! The lines of scalars and of cells.
ghost use Rattle.std.specs.Prelude.{◌≡◌, ℤ, List, IfOk, IfSome, Some, length};
ghost use Rattle.save_lines.specs.declared.lines.SavedLine.{SavedLine as Line};
ghost use Rattle.grid_save.specs.Reads.{AreValues};

use grid_links::Words;
use node_form::Row;
use save_lines::SavedLine;
use std::alloc::{AllocError, Global};

/// The words of a line, if they are so many.
fn words_in(alloc: Global, row: &Row<i64>, count: u32) -> Result<Option<Words>, AllocError>
    ensures found { IfOk result (λ found. length row.now ≡ count → found ≡ Some row.now) }
    ensures right { IfOk result (λ found. IfSome found (λ words.
        (words ≡ row.now) × (length row.now ≡ count))) }
{
    let values = row.as_slice();
    if values.len() != count as usize {
        return Ok(None);
    }
    Ok(Some(Words::of(Vec::from_slice(alloc, values)?)))
}

/// The scalars that this line tells.
pub(crate) fn read_scalars(
    alloc: Global,
    count: u32,
    line: &SavedLine,
) -> Result<Option<Words>, AllocError>
    ensures found { IfOk result (λ found. (values : List ℤ) →
        AreValues Line.Scalars count line.now values → found ≡ Some values) }
    ensures right { IfOk result (λ found.
        IfSome found (AreValues Line.Scalars count line.now)) }
{
    match line {
        SavedLine::Scalars(row) => words_in(alloc, row, count),
        _ => Ok(None),
    }
}

/// The cells that this line tells.
pub(crate) fn read_cells(
    alloc: Global,
    count: u32,
    line: &SavedLine,
) -> Result<Option<Words>, AllocError>
    ensures found { IfOk result (λ found. (values : List ℤ) →
        AreValues Line.Cells count line.now values → found ≡ Some values) }
    ensures right { IfOk result (λ found.
        IfSome found (AreValues Line.Cells count line.now)) }
{
    match line {
        SavedLine::Cells(row) => words_in(alloc, row, count),
        _ => Ok(None),
    }
}
