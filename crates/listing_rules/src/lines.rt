//! Which row a line is, part by part.
ghost use Rattle.std.specs.Prelude.{◌≡◌, [], ℕ, List, All, IfOk, IsTrue, MatchOption, ◌↔◌};
ghost use Rattle.node_form.specs.declared.arrays.ArrayRow.{ArrayRow as Array};
ghost use Rattle.node_form.specs.declared.arrays.Item.{Item as Piece};
ghost use Rattle.node_form.specs.declared.instructions.Instr.{Instr as Step};
ghost use Rattle.node_form.specs.declared.words.ExprOp.{ExprOp as Word};
ghost use Rattle.node_form.specs.Fits.{IsRank};
ghost use Rattle.listing_rows.specs.Rows.{line_of};
ghost use Rattle.listing_rules.specs.Facts.{Knows};
ghost use Rattle.listing_rules.specs.Rules.{
  IsArrayLine,
  IsCountLine,
  IsExprLine,
  IsGridLine,
  IsInstrLine,
  IsItemLine,
  IsSlotsLine,
  IsTextLine,
  code_line,
  version_line,
};

use crate::facts::Known;
use crate::found::{array_in, bytes_in, grid_in, instr_in, item_in, number_at, ranks_in, words_in};
use crate::same::same_line;
use listing_rows::listing_lines::{Keyword, Line};
use listing_rows::{
    Said, array_line, expr_line, grid_line, instr_line, item_line, line_of, slots_line, text_line,
};
use node_form::{
    ArrayRow, ExprRow, Grid3, Instr, Item, Row, Rows, Slots, TextRow, fits_array, is_grid, is_rank,
};
use std::alloc::{AllocError, Global};

/// Whether the line is the first one of each listing.
pub(crate) fn is_version(alloc: Global, line: &Line) -> Result<bool, AllocError>
    ensures { IfOk result (λ is. IsTrue is ↔ (line.now ≡ version_line)) }
{
    let written = line_of(alloc, Keyword::Version, &[Said::Number(1)])?;
    Ok(same_line(line, &written))
}

/// Whether the line is the one in front of the instructions.
pub(crate) fn is_code(alloc: Global, line: &Line) -> Result<bool, AllocError>
    ensures { IfOk result (λ is. IsTrue is ↔ (line.now ≡ code_line)) }
{
    is_heading(alloc, Keyword::Code, line)
}

/// Whether the line has this keyword and no fields.
pub(crate) fn is_heading(alloc: Global, keyword: Keyword, line: &Line) -> Result<bool, AllocError>
    ensures { IfOk result (λ is. IsTrue is ↔ (line.now ≡ line_of keyword [])) }
{
    let written = line_of(alloc, keyword, &[])?;
    Ok(same_line(line, &written))
}

pub(crate) fn read_grid(alloc: Global, line: &Line) -> Result<Option<Grid3>, AllocError>
    ensures { IfOk result (λ found. MatchOption found
        ((grid : List ℕ) → IsGridLine line.now grid → ⊥)
        (IsGridLine line.now)) }
{
    let grid = grid_in(line.fields.as_slice());
    let written = grid_line(alloc, &grid)?;
    if !is_grid(&grid) || !same_line(line, &written) {
        return Ok(None);
    }
    Ok(Some(grid))
}

/// The number of scalars or of cells.
pub(crate) fn read_count(
    alloc: Global,
    keyword: Keyword,
    line: &Line,
) -> Result<Option<u32>, AllocError>
    ensures { IfOk result (λ found. MatchOption found
        ((count : ℕ) → IsCountLine keyword line.now count → ⊥)
        (IsCountLine keyword line.now)) }
{
    let count = number_at(line.fields.as_slice(), 0);
    let written = line_of(alloc, keyword, &[Said::Number(count)])?;
    if !same_line(line, &written) {
        return Ok(None);
    }
    Ok(Some(count))
}

fn are_ranks(ranks: &[u8]) -> bool
    ensures { IsTrue result ↔ All IsRank ranks.now }
{
    ranks.iter().all(|rank| is_rank(*rank))
}

/// Slots of these ranks.
fn slots_of(alloc: Global, ranks: &[u8]) -> Result<Slots, AllocError>
    ensures { IfOk result (λ slots. slots ≡ ranks.now) }
{
    let mut slots = Rows::new(alloc);
    for rank in ranks {
        slots.push(alloc, *rank)?;
    }
    Ok(slots)
}

pub(crate) fn read_slots(alloc: Global, line: &Line) -> Result<Option<Slots>, AllocError>
    ensures { IfOk result (λ found. MatchOption found
        ((ranks : List ℕ) → IsSlotsLine line.now ranks → ⊥)
        (IsSlotsLine line.now)) }
{
    let ranks = ranks_in(alloc, line.fields.as_slice())?;
    let slots = slots_of(alloc, &ranks)?;
    let written = slots_line(alloc, &slots)?;
    if !are_ranks(&ranks) || !same_line(line, &written) {
        return Ok(None);
    }
    Ok(Some(slots))
}

pub(crate) fn read_array(alloc: Global, line: &Line) -> Result<Option<ArrayRow>, AllocError>
    ensures { IfOk result (λ found. MatchOption found
        ((row : Array) → IsArrayLine line.now row → ⊥)
        (IsArrayLine line.now)) }
{
    let row = array_in(line.fields.as_slice());
    let written = array_line(alloc, &row)?;
    if !fits_array(&row) || !same_line(line, &written) {
        return Ok(None);
    }
    Ok(Some(row))
}

pub(crate) fn read_text(alloc: Global, line: &Line) -> Result<Option<TextRow>, AllocError>
    ensures { IfOk result (λ found. MatchOption found
        ((bytes : List ℕ) → IsTextLine line.now bytes → ⊥)
        (IsTextLine line.now)) }
{
    let bytes = bytes_in(line.fields.as_slice());
    let written = text_line(alloc, bytes)?;
    if !same_line(line, &written) {
        return Ok(None);
    }
    Ok(Some(Row::of(Vec::from_slice(alloc, bytes)?)))
}

pub(crate) fn read_expr(
    alloc: Global,
    known: &Known,
    line: &Line,
) -> Result<Option<ExprRow>, AllocError>
    ensures { IfOk result (λ found. MatchOption found
        ((words : List Word) → IsExprLine known.now.tables line.now words → ⊥)
        (IsExprLine known.now.tables line.now)) }
{
    let words = words_in(alloc, line.fields.as_slice())?;
    let written = expr_line(alloc, &known.tables, &words)?;
    if !known.fits_expr(&words) || !same_line(line, &written) {
        return Ok(None);
    }
    Ok(Some(Row::of(words)))
}

pub(crate) fn read_item(
    alloc: Global,
    known: &Known,
    line: &Line,
) -> Result<Option<Item>, AllocError>
    ensures { IfOk result (λ found. MatchOption found
        ((item : Piece) → IsItemLine known.now.tables line.now item → ⊥)
        (IsItemLine known.now.tables line.now)) }
{
    let item = item_in(line.fields.as_slice());
    let written = item_line(alloc, &known.tables, &item)?;
    if !known.tables.fits_item(&item) || !same_line(line, &written) {
        return Ok(None);
    }
    Ok(Some(item))
}

/// The instruction, among so many.
pub(crate) fn read_instr(
    alloc: Global,
    known: &Known,
    count: u64,
    line: &Line,
) -> Result<Option<Instr>, AllocError>
    requires { Knows known.now }
    ensures { IfOk result (λ found. MatchOption found
        ((row : Step) → IsInstrLine known.now.tables count line.now row → ⊥)
        (IsInstrLine known.now.tables count line.now)) }
{
    let Some(instr) = instr_in(line.keyword, line.fields.as_slice()) else {
        return Ok(None);
    };
    let written = instr_line(alloc, &known.tables, &instr)?;
    if !known.fits_instr(count, &instr) || !same_line(line, &written) {
        return Ok(None);
    }
    Ok(Some(instr))
}
