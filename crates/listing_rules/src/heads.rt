//! The lines that each listing begins with, and the line in front of the instructions.
ghost use Rattle.std.specs.Prelude.{◌≡◌, ◌+◌, ◌^◌, ◌<◌, ◌≤◌, IfErr, IfOk, OnOk, drop, length};
ghost use Rattle.listing_rules.specs.Reads.{FaultAt, First, NoFirst};
ghost use Rattle.listing_rules.specs.Rules.{
  IsCodeLine,
  IsCountLine,
  IsGridLine,
  IsSlotsLine,
  IsVersionLine,
};
ghost use Rattle.listing_rules.specs.Stages.{Breaks, ReadHead};

use crate::faults::{ListFault, bad_table};
use crate::lines::{is_code, is_version, read_count, read_grid, read_slots};
use crate::parts::line_at;
use listing_rows::listing_lines::{Keyword, Line};
use node_form::{Grid3, Slots, Tables};
use std::alloc::Global;

fn take_version(alloc: Global, lines: &[Line], at: usize) -> Result<(), ListFault>
    requires few { length lines.now + 1 < 2 ^ 32 }
    requires inside { at ≤ length lines.now }
    ensures ok { OnOk result (First IsVersionLine (drop at lines.now) 1 (drop (at + 1) lines.now)) }
    ensures inside { OnOk result (at < length lines.now) }
    ensures err { IfErr result (FaultAt (NoFirst IsVersionLine (drop at lines.now)) lines.now) }
{
    let Some(line) = line_at(lines, at) else {
        return Err(bad_table(at));
    };
    if !is_version(alloc, line)? {
        return Err(bad_table(at));
    }
    Ok(())
}

/// Goes over the line in front of the instructions.
pub(crate) fn take_code(alloc: Global, lines: &[Line], at: usize) -> Result<(), ListFault>
    requires few { length lines.now + 1 < 2 ^ 32 }
    requires inside { at ≤ length lines.now }
    ensures ok { OnOk result (First IsCodeLine (drop at lines.now) 0 (drop (at + 1) lines.now)) }
    ensures inside { OnOk result (at < length lines.now) }
    ensures err { IfErr result (FaultAt (NoFirst IsCodeLine (drop at lines.now)) lines.now) }
{
    let Some(line) = line_at(lines, at) else {
        return Err(bad_table(at));
    };
    if !is_code(alloc, line)? {
        return Err(bad_table(at));
    }
    Ok(())
}

fn take_grid(alloc: Global, lines: &[Line], at: usize) -> Result<Grid3, ListFault>
    requires few { length lines.now + 1 < 2 ^ 32 }
    requires inside { at ≤ length lines.now }
    ensures ok { IfOk result (λ grid.
        First IsGridLine (drop at lines.now) grid (drop (at + 1) lines.now)) }
    ensures inside { OnOk result (at < length lines.now) }
    ensures err { IfErr result (FaultAt (NoFirst IsGridLine (drop at lines.now)) lines.now) }
{
    let Some(line) = line_at(lines, at) else {
        return Err(bad_table(at));
    };
    let Some(grid) = read_grid(alloc, line)? else {
        return Err(bad_table(at));
    };
    Ok(grid)
}

fn take_count(alloc: Global, keyword: Keyword, lines: &[Line], at: usize) -> Result<u32, ListFault>
    requires few { length lines.now + 1 < 2 ^ 32 }
    requires inside { at ≤ length lines.now }
    ensures ok { IfOk result (λ count.
        First (IsCountLine keyword) (drop at lines.now) count (drop (at + 1) lines.now)) }
    ensures inside { OnOk result (at < length lines.now) }
    ensures err { IfErr result (FaultAt
        (NoFirst (IsCountLine keyword) (drop at lines.now)) lines.now) }
{
    let Some(line) = line_at(lines, at) else {
        return Err(bad_table(at));
    };
    let Some(count) = read_count(alloc, keyword, line)? else {
        return Err(bad_table(at));
    };
    Ok(count)
}

fn take_slots(alloc: Global, lines: &[Line], at: usize) -> Result<Slots, ListFault>
    requires few { length lines.now + 1 < 2 ^ 32 }
    requires inside { at ≤ length lines.now }
    ensures ok { IfOk result (λ slots.
        First IsSlotsLine (drop at lines.now) slots (drop (at + 1) lines.now)) }
    ensures inside { OnOk result (at < length lines.now) }
    ensures err { IfErr result (FaultAt (NoFirst IsSlotsLine (drop at lines.now)) lines.now) }
{
    let Some(line) = line_at(lines, at) else {
        return Err(bad_table(at));
    };
    let Some(slots) = read_slots(alloc, line)? else {
        return Err(bad_table(at));
    };
    Ok(slots)
}

/// Tables with what the first five lines say.
pub(crate) fn read_head(alloc: Global, lines: &[Line]) -> Result<Tables, ListFault>
    requires { length lines.now + 1 < 2 ^ 32 }
    ensures ok { IfOk result (λ tables. ReadHead lines.now tables (drop 5 lines.now)) }
    ensures inside { OnOk result (5 ≤ length lines.now) }
    ensures err { IfErr result (FaultAt (Breaks lines.now) lines.now) }
{
    take_version(alloc, lines, 0)?;
    let grid = take_grid(alloc, lines, 1)?;
    let scalars = take_count(alloc, Keyword::Scalars, lines, 2)?;
    let slots = take_slots(alloc, lines, 3)?;
    let cells = take_count(alloc, Keyword::Cells, lines, 4)?;
    let mut tables = Tables::new(alloc, grid);
    tables.scalars = scalars;
    tables.slots = slots;
    tables.cells = cells;
    Ok(tables)
}
