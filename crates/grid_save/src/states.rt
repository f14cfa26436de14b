//! Writing the state of a processor.
ghost use Rattle.std.specs.Prelude.{◌≡◌, [], ◌∷◌, All, IfSome, OnOk, length, map, slice_get};
ghost use Rattle.std.specs.Option.{ForSome, option_copied, option_map};
ghost use Rattle.zpl_region.specs.Region.{IsRegion};
ghost use Rattle.zpl_arrays.specs.Array.{IsArray};
ghost use Rattle.grid_meaning.specs.Local.{processors};
ghost use Rattle.node_form.specs.declared.tables.Tables.{Tables};
ghost use Rattle.node_local.specs.Workplace.{IsReady};
ghost use Rattle.save_lines.specs.declared.lines.SavedLine.{SavedLine as Line};
ghost use Rattle.save_lines.specs.Line.{IsSavedLine};
ghost use Rattle.grid_save.specs.Writing.{Writes};
ghost use Rattle.grid_save.specs.Written.{found_lines, kept_line, kept_lines, local_lines};
ghost use Rattle.grid_save.specs.Written.{slot_line, store_line};

use crate::parts::{kept_line, proc_row, slot_line, store_line, values_are_integers};
use fold_messages::push_values;
use grid_links::Words;
use node_form::{ArrayRow, NodeProgram, Row};
use node_local::Local;
use save_lines::{SavedLine, write_line};
use std::alloc::{AllocError, Global};
use zpl_region::Region;

/// Appends the lines of a processor's state. An error comes for want of memory, and where a number
/// is none of 64 bits or an array's none of 32, as of code that no memory holds.
pub(crate) fn add_local(
    alloc: Global,
    code: &NodeProgram,
    count: u32,
    p: u32,
    local: &Local,
    text: &mut Vec<u8>,
) -> Result<(), AllocError>
    requires ready { IsReady code.now p local.now }
    requires count { count ≡ processors code.now }
    ensures { OnOk result (Writes text.old.items (local_lines code.now p local.now.local)
        text.new.items) }
{
    write_line(&SavedLine::Proc(proc_row(p, local)?), text)?;
    add_scalars(alloc, local, code.tables().scalars, text)?;
    add_slots(alloc, local.slots(), text)?;
    add_cells(alloc, local, code.tables().cells, text)?;
    add_stores(alloc, code, p, local, text)?;
    add_kept(alloc, local, count, text)
}

fn add_scalars(
    alloc: Global,
    local: &Local,
    count: u32,
    text: &mut Vec<u8>,
) -> Result<(), AllocError>
    requires { length local.now.local.scalars ≡ count }
    ensures { OnOk result (Writes text.old.items (Line.Scalars local.now.local.scalars ∷ [])
        text.new.items) }
{
    let mut values = Vec::new(alloc);
    for i in 0..count {
        values.push(local.scalar(i).unwrap_or(0))?;
    }
    values_are_integers(values.as_slice());
    write_line(&SavedLine::Scalars(Row::of(values)), text)
}

fn add_cells(alloc: Global, local: &Local, count: u32, text: &mut Vec<u8>) -> Result<(), AllocError>
    requires { length local.now.local.cells ≡ count }
    ensures { OnOk result (Writes text.old.items (Line.Cells local.now.local.cells ∷ [])
        text.new.items) }
{
    let mut values = Vec::new(alloc);
    for i in 0..count {
        values.push(local.cell(i).unwrap_or(0))?;
    }
    values_are_integers(values.as_slice());
    write_line(&SavedLine::Cells(Row::of(values)), text)
}

fn add_slots(alloc: Global, slots: &[Region], text: &mut Vec<u8>) -> Result<(), AllocError>
    requires { All (λ region. IsSavedLine (slot_line region)) slots.now }
    ensures { OnOk result (Writes text.old.items (map slot_line slots.now) text.new.items) }
{
    for i in 0..slots.len() {
        add_slot(alloc, slot_at(slots, i), text)?;
    }
    Ok(())
}

fn slot_at(slots: &[Region], i: usize) -> Option<&Region>
    ensures { option_copied result ≡ slice_get slots.now i }
{
    slots.get(i)
}

/// Appends the line of a slot, if there is one.
fn add_slot(alloc: Global, found: Option<&Region>, text: &mut Vec<u8>) -> Result<(), AllocError>
    requires { IfSome (option_copied found) (λ region. IsSavedLine (slot_line region)) }
    ensures { OnOk result (Writes text.old.items
        (found_lines slot_line (option_copied found.entry)) text.new.items) }
{
    match found {
        Some(region) => write_line(&slot_line(alloc, region)?, text),
        None => Ok(()),
    }
}

fn add_stores(
    alloc: Global,
    code: &NodeProgram,
    p: u32,
    local: &Local,
    text: &mut Vec<u8>,
) -> Result<(), AllocError>
    requires ready { IsReady code.now p local.now }
    ensures { OnOk result (Writes text.old.items (map store_line local.now.local.stores)
        text.new.items) }
{
    let count = code.tables().arrays.len();
    if count > u64::from(u32::MAX) {
        return Err(AllocError);
    }
    for array in 0..count as u32 {
        let places = held_places(code, p, local, array);
        add_store(alloc, local, array, places, text)?;
    }
    Ok(())
}

/// The places of an array that a processor holds, if there is one of that number.
fn held_places(code: &NodeProgram, p: u32, local: &Local, array: u32) -> Option<Region>
    requires { IsReady code.now p local.now }
    ensures places { result ≡ option_map (λ store. store.storage)
        (slice_get local.now.local.stores array) }
    ensures region { IfSome result IsRegion }
    ensures arrays { All IsArray local.now.local.stores }
{
    has_three(code.tables().arrays.get(u64::from(array))?);
    local.shape(array)
}

/// A law: a region has three dimensions.
fn places_have_three(places: &Region)
    ensures { length places.now.dims ≡ 3 }
{
    let [_planes, _rows, _columns] = places.dims;
}

/// A law: an array has three dimensions.
fn has_three(row: &ArrayRow)
    ensures { length row.now.dims ≡ 3 }
{
    let [_first, _second, _third] = row.dims;
}

/// Appends the line of an array with these places, if there is one of that number.
fn add_store(
    alloc: Global,
    local: &Local,
    array: u32,
    places: Option<Region>,
    text: &mut Vec<u8>,
) -> Result<(), AllocError>
    requires arrays { All IsArray local.now.local.stores }
    requires places { places ≡ option_map (λ store. store.storage)
        (slice_get local.now.local.stores array) }
    requires region { ForSome places IsRegion }
    ensures { OnOk result (Writes text.old.items
        (found_lines store_line (slice_get local.now.local.stores array)) text.new.items) }
{
    let Some(places) = places else {
        return Ok(());
    };
    let mut values = Vec::new(alloc);
    push_values(local, array, &places, &mut values)?;
    places_have_three(&places);
    values_are_integers(values.as_slice());
    write_line(&store_line(alloc, &places, values)?, text)
}

/// Appends the lines of the words that are kept.
fn add_kept(alloc: Global, local: &Local, count: u32, text: &mut Vec<u8>) -> Result<(), AllocError>
    ensures { (code : Tables) → processors code ≡ count → OnOk result (Writes text.old.items
        (kept_lines code local.now.local.kept) text.new.items) }
{
    for q in 0..count {
        add_kept_from(alloc, q, local.kept(q), text)?;
    }
    Ok(())
}

/// Appends the line of the words that are kept of a processor's message, if there are any.
fn add_kept_from(
    alloc: Global,
    from: u32,
    found: Option<&Words>,
    text: &mut Vec<u8>,
) -> Result<(), AllocError>
    ensures { OnOk result (Writes text.old.items
        (found_lines (λ words. kept_line (from, words)) (option_copied found.entry))
        text.new.items) }
{
    match found {
        Some(words) => write_line(&kept_line(alloc, from, words)?, text),
        None => Ok(()),
    }
}
