//! The values of a processor, from its lines.
ghost use Rattle.std.specs.Prelude.{◌≡◌, ◌+◌, ◌^◌, ◌<◌, ◌≤◌, ◌∷◌, IfErr, IfOk, drop, length, map};
ghost use Rattle.node_form.specs.Fits.{Fits, FitsArray, IsRank};
ghost use Rattle.grid_meaning.specs.Local.{processors};
ghost use Rattle.grid_meaning.specs.Stored.{arrangement_of};
ghost use Rattle.node_local.specs.Standing.{array_in, standing_local};
ghost use Rattle.save_lines.specs.Line.{AreSavedLines};
ghost use Rattle.save_lines.specs.declared.lines.SavedLine.{SavedLine as Line};
ghost use Rattle.grid_save.specs.Reads.{AreValues, BreaksValues, Each, EachBreaks, First, IsProc};
ghost use Rattle.grid_save.specs.Reads.{IsSlotLine, IsStoreLine, NoFirst, ReadsValues};
ghost use Rattle.save_reading.specs.Fault.{FaultAt};
ghost use Rattle.save_reading.specs.Place.{placed};

use crate::boxes::read_store;
use crate::faults::{StateFault, bad_state};
use crate::lines::{keep, line_at};
use crate::places::{Place, read_place};
use crate::slots::read_slot;
use crate::values::{read_cells, read_scalars};
use grid_layout::Layout;
use grid_links::Words;
use node_form::{ArrayRow, NodeProgram, Tables, rows_fit};
use node_local::{KeptWords, Slots, Standing, Store, Stores};
use save_lines::SavedLine;
use std::alloc::Global;
use zpl_region::Region;

fn take_place(code: &Tables, p: u32, lines: &[SavedLine], at: usize) -> Result<Place, StateFault>
    requires lines { AreSavedLines lines.now }
    requires few { length lines.now + 1 < 2 ^ 32 }
    requires inside { at ≤ length lines.now }
    ensures ok { IfOk result (λ place. First (IsProc code.now p) (drop at lines.now) (placed place)
        (drop (at + 1) lines.now)) }
    ensures inside { IfOk result (λ _. at < length lines.now) }
    ensures err { IfErr result (FaultAt
        (NoFirst (IsProc code.now p) (drop at lines.now)) lines.now) }
{
    let Some(line) = line_at(lines, at) else {
        return Err(bad_state(at));
    };
    let Some(place) = read_place(code, p, line) else {
        return Err(bad_state(at));
    };
    Ok(place)
}

fn take_scalars(
    alloc: Global,
    count: u32,
    lines: &[SavedLine],
    at: usize,
) -> Result<Words, StateFault>
    requires few { length lines.now + 1 < 2 ^ 32 }
    requires inside { at ≤ length lines.now }
    ensures ok { IfOk result (λ values. First (AreValues Line.Scalars count) (drop at lines.now)
        values (drop (at + 1) lines.now)) }
    ensures inside { IfOk result (λ _. at < length lines.now) }
    ensures err { IfErr result (FaultAt
        (NoFirst (AreValues Line.Scalars count) (drop at lines.now)) lines.now) }
{
    let Some(line) = line_at(lines, at) else {
        return Err(bad_state(at));
    };
    let Some(values) = read_scalars(alloc, count, line)? else {
        return Err(bad_state(at));
    };
    Ok(values)
}

fn take_cells(
    alloc: Global,
    count: u32,
    lines: &[SavedLine],
    at: usize,
) -> Result<Words, StateFault>
    requires few { length lines.now + 1 < 2 ^ 32 }
    requires inside { at ≤ length lines.now }
    ensures ok { IfOk result (λ values. First (AreValues Line.Cells count) (drop at lines.now)
        values (drop (at + 1) lines.now)) }
    ensures inside { IfOk result (λ _. at < length lines.now) }
    ensures err { IfErr result (FaultAt
        (NoFirst (AreValues Line.Cells count) (drop at lines.now)) lines.now) }
{
    let Some(line) = line_at(lines, at) else {
        return Err(bad_state(at));
    };
    let Some(values) = read_cells(alloc, count, line)? else {
        return Err(bad_state(at));
    };
    Ok(values)
}

fn take_slot(rank: u8, lines: &[SavedLine], at: usize) -> Result<Region, StateFault>
    requires rank { IsRank rank }
    requires few { length lines.now + 1 < 2 ^ 32 }
    requires inside { at ≤ length lines.now }
    ensures ok { IfOk result (λ region. First (IsSlotLine rank) (drop at lines.now) region
        (drop (at + 1) lines.now)) }
    ensures inside { IfOk result (λ _. at < length lines.now) }
    ensures err { IfErr result (FaultAt
        (NoFirst (IsSlotLine rank) (drop at lines.now)) lines.now) }
{
    let Some(line) = line_at(lines, at) else {
        return Err(bad_state(at));
    };
    let Some(region) = read_slot(rank, line) else {
        return Err(bad_state(at));
    };
    Ok(region)
}

/// The rank of a slot.
fn slot_rank(code: &Tables, slot: u64) -> u8
    requires fits { Fits code.now }
    requires there { slot < length code.now.slots }
    ensures next { drop slot code.now.slots ≡ result ∷ drop (slot + 1) code.now.slots }
    ensures rank { IsRank result }
{
    rows_fit();
    *code.slots.get(slot).unwrap()
}

/// The row of an array.
fn array_row(code: &Tables, array: u64) -> &ArrayRow
    requires fits { Fits code.now }
    requires there { array < length code.now.arrays }
    ensures next { drop array code.now.arrays ≡ result.now ∷ drop (array + 1) code.now.arrays }
    ensures fits { FitsArray result.now }
{
    rows_fit();
    code.arrays.get(array).unwrap()
}

/// The regions of slots from a line on, and the place behind them.
fn take_slots(
    alloc: Global,
    code: &Tables,
    lines: &[SavedLine],
    from: usize,
) -> Result<(Vec<Region>, usize), StateFault>
    requires fits { Fits code.now }
    requires few { length lines.now + 1 < 2 ^ 32 }
    requires inside { from ≤ length lines.now }
    ensures ok { IfOk result (λ found. Each (λ rank. First (IsSlotLine rank)) code.now.slots
        (drop from lines.now) found.0.items (drop found.1 lines.now)) }
    ensures inside { IfOk result (λ found. found.1 ≤ length lines.now) }
    ensures err { IfErr result (FaultAt (EachBreaks (λ rank. First (IsSlotLine rank))
        (λ rank. NoFirst (IsSlotLine rank)) code.now.slots (drop from lines.now)) lines.now) }
{
    let mut regions = Vec::new(alloc);
    let mut at = from;
    for i in 0..code.slots.len() {
        let rank = slot_rank(code, i);
        let region = take_slot(rank, lines, at)?;
        keep(&mut regions, region)?;
        at += 1;
    }
    Ok((regions, at))
}

fn take_store(
    alloc: Global,
    code: &Tables,
    layout: &Layout,
    p: u32,
    row: &ArrayRow,
    lines: &[SavedLine],
    at: usize,
) -> Result<Store, StateFault>
    requires layout { layout.now ≡ arrangement_of code.now }
    requires processor { p < processors code.now }
    requires fits { FitsArray row.now }
    requires few { length lines.now + 1 < 2 ^ 32 }
    requires inside { at ≤ length lines.now }
    ensures ok { IfOk result (λ store. First (IsStoreLine code.now p row.now) (drop at lines.now)
        (array_in store) (drop (at + 1) lines.now)) }
    ensures inside { IfOk result (λ _. at < length lines.now) }
    ensures err { IfErr result (FaultAt
        (NoFirst (IsStoreLine code.now p row.now) (drop at lines.now)) lines.now) }
{
    let Some(line) = line_at(lines, at) else {
        return Err(bad_state(at));
    };
    let Some(store) = read_store(alloc, code, layout, p, row, line)? else {
        return Err(bad_state(at));
    };
    Ok(store)
}

/// The stores of arrays from a line on, and the place behind them.
fn take_stores(
    alloc: Global,
    code: &Tables,
    layout: &Layout,
    p: u32,
    lines: &[SavedLine],
    from: usize,
) -> Result<(Vec<Store>, usize), StateFault>
    requires layout { layout.now ≡ arrangement_of code.now }
    requires processor { p < processors code.now }
    requires fits { Fits code.now }
    requires few { length lines.now + 1 < 2 ^ 32 }
    requires inside { from ≤ length lines.now }
    ensures ok { IfOk result (λ found. Each (λ row. First (IsStoreLine code.now p row))
        code.now.arrays (drop from lines.now) (map array_in found.0.items)
        (drop found.1 lines.now)) }
    ensures inside { IfOk result (λ found. found.1 ≤ length lines.now) }
    ensures err { IfErr result (FaultAt (EachBreaks (λ row. First (IsStoreLine code.now p row))
        (λ row. NoFirst (IsStoreLine code.now p row)) code.now.arrays (drop from lines.now))
        lines.now) }
{
    let mut stores = Vec::new(alloc);
    let mut at = from;
    for i in 0..code.arrays.len() {
        let row = array_row(code, i);
        let store = take_store(alloc, code, layout, p, row, lines, at)?;
        keep(&mut stores, store)?;
        at += 1;
    }
    Ok((stores, at))
}

/// What a processor has, but for the words that it keeps, from a line on, and the place behind it.
pub fn read_values(
    alloc: Global,
    code: &NodeProgram,
    layout: &Layout,
    p: u32,
    lines: &[SavedLine],
    from: usize,
) -> Result<(Standing, usize), StateFault>
    requires layout { layout.now ≡ arrangement_of code.now }
    requires processor { p < processors code.now }
    requires lines { AreSavedLines lines.now }
    requires few { length lines.now + 1 < 2 ^ 32 }
    requires inside { from ≤ length lines.now }
    ensures ok { IfOk result (λ found. ReadsValues code.now p (drop from lines.now)
        (standing_local found.0) (drop found.1 lines.now)) }
    ensures inside { IfOk result (λ found. found.1 ≤ length lines.now) }
    ensures err { IfErr result (FaultAt
        (BreaksValues code.now p (drop from lines.now)) lines.now) }
{
    let tables = code.tables();
    let place = take_place(tables, p, lines, from)?;
    let scalars = take_scalars(alloc, tables.scalars, lines, from + 1)?;
    let (slots, behind) = take_slots(alloc, tables, lines, from + 2)?;
    let cells = take_cells(alloc, tables.cells, lines, behind)?;
    let (stores, behind) = take_stores(alloc, tables, layout, p, lines, behind + 1)?;
    let standing = Standing {
        at: place.at,
        made: place.made,
        index: place.index,
        member: place.member,
        flag: place.flag,
        ended: place.ended,
        scalars,
        slots: Slots::of(slots),
        cells,
        stores: Stores::of(stores),
        kept: KeptWords::of(Vec::new(alloc)),
    };
    Ok((standing, behind))
}
