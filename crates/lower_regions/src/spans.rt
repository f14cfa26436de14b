//! Regions that are written by their dimensions.
ghost use Rattle.std.specs.Prelude.{◌≡◌, ◌≤◌, IfOk, OnOk, length, map};
ghost use Rattle.zpl_tree.specs.Syntax.{Named, NoDim, One, ThenDim};
ghost use Rattle.zpl_tree.specs.View.{dim_of, dims_of, expr_of, name_of};
ghost use Rattle.node_form.specs.Expression.{words_of};
ghost use Rattle.lower_places.specs.of_zpl_lowering.Bracket as plain;
ghost use Rattle.lower_places.specs.of_zpl_lowering.Where.{Slotted as Plain};
ghost use Rattle.lower_places.specs.of_zpl_lowering.Words.{scalar_code};
ghost use Rattle.lower_places.specs.of_lower_draft.Inline.{part_of as seen_part};
ghost use Rattle.lower_places.specs.View.{slotted_of, where_of};
ghost use Rattle.lower_regions.specs.Opened.{IsOpened, span_of, with_opened};

use crate::opened::Opened;
use lower_places::lower_draft::{Draft, FlatPart, FlatRow, Flood};
use lower_places::{Place, Slotted, put_scalar_words, thing_word};
use node_form::ExprRow;
use std::alloc::{AllocError, Global};
use zpl_tree::{DimText, Expr, Name};

/// The words of a bound.
fn bound(alloc: Global, place: &Place<'_, '_>, expr: &Expr<'_>) -> Result<ExprRow, AllocError>
    ensures { IfOk result (λ words. words
        ≡ words_of (scalar_code (where_of place.now) (expr_of expr.now))) }
{
    let mut words = Vec::new(alloc);
    put_scalar_words(&mut words, place, expr)?;
    Ok(ExprRow::of(words))
}

/// A dimension. A blank is that of the current region.
fn part_of(
    alloc: Global,
    place: &Place<'_, '_>,
    current: u32,
    text: &DimText<'_>,
) -> Result<FlatPart, AllocError>
    ensures { IfOk result (λ part. seen_part part
        ≡ plain.part_of (where_of place.now) current (dim_of text.now)) }
{
    match text {
        DimText::Blank(_) => Ok(FlatPart::Copied(current)),
        DimText::Star(_) => Ok(FlatPart::Star),
        DimText::One(index) => {
            let low = bound(alloc, place, index)?;
            let high = bound(alloc, place, index)?;
            Ok(FlatPart::Span(low, high))
        }
        DimText::Span(low, high) => {
            let low = bound(alloc, place, low)?;
            let high = bound(alloc, place, high)?;
            Ok(FlatPart::Span(low, high))
        }
    }
}

/// Whether a dimension is a flood dimension. A blank is one where that of the current region is.
fn dim_flood(current: &Slotted, k: u8, text: &DimText<'_>) -> bool
    ensures { result ≡ plain.dim_flood (slotted_of current.now) k (dim_of text.now) }
{
    match text {
        DimText::Blank(_) => current.flood.at(k),
        DimText::Star(_) => true,
        DimText::One(_) | DimText::Span(_, _) => false,
    }
}

/// Appends a row that fills the next slot with the region of these dimensions.
fn fill(
    draft: &mut Draft,
    line: u32,
    flood: Flood,
    parts: [FlatPart; 3],
) -> Result<Opened, AllocError>
    ensures rows { OnOk result (draft.new ≡ with_opened draft.old
        (span_of draft.old.next.slots line flood (map seen_part parts))) }
    ensures opened { IfOk result (IsOpened
        (span_of draft.old.next.slots line flood (map seen_part parts))) }
{
    let slot = draft.add_slot(flood.rank())?;
    draft.push(FlatRow::Dims { slot, parts, line })?;
    Ok(Opened { slot, flood })
}

/// Appends a row that makes the region of one to three dimensions.
pub fn spanned(
    draft: &mut Draft,
    place: &Place<'_, '_>,
    line: u32,
    current: &Slotted,
    dims: &[DimText<'_>],
) -> Result<Opened, AllocError>
    requires some { 1 ≤ length dims.now }
    requires few { length dims.now ≤ 3 }
    ensures rows { OnOk result (draft.new ≡ with_opened draft.old
        (plain.spanned (where_of place.now) draft.old.next.slots line (slotted_of current.now)
        (dims_of dims.now))) }
    ensures opened { IfOk result (IsOpened
        (plain.spanned (where_of place.now) draft.old.next.slots line (slotted_of current.now)
        (dims_of dims.now))) }
{
    let alloc = draft.alloc();
    match dims {
        [row] => {
            let flood = Flood::new().with(dim_flood(current, 0, row));
            let row = part_of(alloc, place, current.slot, row)?;
            fill(draft, line, flood, [row, FlatPart::Star, FlatPart::Star])
        }
        [row, column] => {
            let flood = Flood::new()
                .with(dim_flood(current, 0, row))
                .with(dim_flood(current, 1, column));
            let row = part_of(alloc, place, current.slot, row)?;
            let column = part_of(alloc, place, current.slot, column)?;
            fill(draft, line, flood, [row, column, FlatPart::Star])
        }
        [plane, row, column] => {
            let flood = Flood::new()
                .with(dim_flood(current, 0, plane))
                .with(dim_flood(current, 1, row))
                .with(dim_flood(current, 2, column));
            let plane = part_of(alloc, place, current.slot, plane)?;
            let row = part_of(alloc, place, current.slot, row)?;
            let column = part_of(alloc, place, current.slot, column)?;
            fill(draft, line, flood, [plane, row, column])
        }
        _ => unreachable!(),
    }
}

/// Appends a row that makes the region of an index of rank 1 that is a name alone.
pub fn index_spanned(
    draft: &mut Draft,
    place: &Place<'_, '_>,
    line: u32,
    name: &Name<'_>,
) -> Result<Opened, AllocError>
    ensures rows { (current : Plain) → OnOk result (draft.new ≡ with_opened draft.old
        (plain.spanned (where_of place.now) draft.old.next.slots line current
        (ThenDim (One (Named name.now.at (name_of name.now))) NoDim))) }
    ensures opened { (current : Plain) → IfOk result (IsOpened
        (plain.spanned (where_of place.now) draft.old.next.slots line current
        (ThenDim (One (Named name.now.at (name_of name.now))) NoDim))) }
{
    let alloc = draft.alloc();
    let low = name_bound(alloc, place, name)?;
    let high = name_bound(alloc, place, name)?;
    let flood = Flood::new().with(false);
    let parts = [FlatPart::Span(low, high), FlatPart::Star, FlatPart::Star];
    fill(draft, line, flood, parts)
}

/// The words of a bound that is a name alone.
fn name_bound(alloc: Global, place: &Place<'_, '_>, name: &Name<'_>) -> Result<ExprRow, AllocError>
    ensures { IfOk result (λ words. words
        ≡ words_of (scalar_code (where_of place.now) (Named name.now.at (name_of name.now)))) }
{
    let mut words = Vec::new(alloc);
    words.push(thing_word(place.numbers, place.find(name)))?;
    Ok(ExprRow::of(words))
}
