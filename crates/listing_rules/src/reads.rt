//! Lines that are rows, one after another.
ghost use Rattle.std.specs.Prelude.{◌≡◌, ◌+◌, ◌^◌, ◌<◌, ◌≤◌, [], ◌∷◌, ◌++◌, OnOk, IfErr, IfOk};
ghost use Rattle.std.specs.Prelude.{drop, length};
ghost use Rattle.listing_rules.specs.Facts.{AreMembers, Knows};
ghost use Rattle.listing_rules.specs.Reads.{FaultAt, Reads, Stops};
ghost use Rattle.listing_rules.specs.Rules.{
  IsArrayLine,
  IsExprLine,
  IsInstrLine,
  IsItemLine,
  IsMemberLine,
  IsTextLine,
  belongs,
};

use crate::facts::Known;
use crate::faults::{ListFault, bad_table};
use crate::groups::Group;
use crate::lines::{read_array, read_expr, read_instr, read_item, read_text};
use crate::parts::{Part, next_of};
use listing_rows::listing_lines::Line;
use node_form::{Arrays, Code, Exprs, Item, Rows, Texts};
use std::alloc::{AllocError, Global};

/// The arrays from a line on, and the place behind them.
pub(crate) fn read_arrays(
    alloc: Global,
    lines: &[Line],
    from: usize,
) -> Result<(Arrays, usize), ListFault>
    requires few { length lines.now + 1 < 2 ^ 32 }
    requires inside { from ≤ length lines.now }
    ensures ok { IfOk result (λ found. Reads (belongs Part.Arrays) (λ done. IsArrayLine) []
        (drop from lines.now) found.0 (drop found.1 lines.now)) }
    ensures inside { IfOk result (λ found. found.1 ≤ length lines.now) }
    ensures err { IfErr result (FaultAt
        (Stops (belongs Part.Arrays) (λ done. IsArrayLine) [] (drop from lines.now)) lines.now) }
{
    let mut rows = Rows::new(alloc);
    let mut at = from;
    while let Some(line) = next_of(Part::Arrays, lines, at) {
        let Some(row) = read_array(alloc, line)? else {
            return Err(bad_table(at));
        };
        rows.push(alloc, row)?;
        at += 1;
    }
    Ok((rows, at))
}

/// The texts from a line on, and the place behind them.
pub(crate) fn read_texts(
    alloc: Global,
    lines: &[Line],
    from: usize,
) -> Result<(Texts, usize), ListFault>
    requires few { length lines.now + 1 < 2 ^ 32 }
    requires inside { from ≤ length lines.now }
    ensures ok { IfOk result (λ found. Reads (belongs Part.Texts) (λ done. IsTextLine) []
        (drop from lines.now) found.0 (drop found.1 lines.now)) }
    ensures inside { IfOk result (λ found. found.1 ≤ length lines.now) }
    ensures err { IfErr result (FaultAt
        (Stops (belongs Part.Texts) (λ done. IsTextLine) [] (drop from lines.now)) lines.now) }
{
    let mut rows = Rows::new(alloc);
    let mut at = from;
    while let Some(line) = next_of(Part::Texts, lines, at) {
        let Some(row) = read_text(alloc, line)? else {
            return Err(bad_table(at));
        };
        rows.push(alloc, row)?;
        at += 1;
    }
    Ok((rows, at))
}

/// The expressions from a line on, and the place behind them.
pub(crate) fn read_exprs(
    alloc: Global,
    known: &Known,
    lines: &[Line],
    from: usize,
) -> Result<(Exprs, usize), ListFault>
    requires few { length lines.now + 1 < 2 ^ 32 }
    requires inside { from ≤ length lines.now }
    ensures ok { IfOk result (λ found. Reads (belongs Part.Exprs)
        (λ done. IsExprLine known.now.tables) [] (drop from lines.now) found.0
        (drop found.1 lines.now)) }
    ensures inside { IfOk result (λ found. found.1 ≤ length lines.now) }
    ensures err { IfErr result (FaultAt (Stops (belongs Part.Exprs)
        (λ done. IsExprLine known.now.tables) [] (drop from lines.now)) lines.now) }
{
    let mut rows = Rows::new(alloc);
    let mut at = from;
    while let Some(line) = next_of(Part::Exprs, lines, at) {
        let Some(row) = read_expr(alloc, known, line)? else {
            return Err(bad_table(at));
        };
        rows.push(alloc, row)?;
        at += 1;
    }
    Ok((rows, at))
}

/// The items from a line on, and the place behind them.
pub(crate) fn read_items(
    alloc: Global,
    known: &Known,
    lines: &[Line],
    from: usize,
) -> Result<(Vec<Item>, usize), ListFault>
    requires few { length lines.now + 1 < 2 ^ 32 }
    requires inside { from ≤ length lines.now }
    ensures ok { IfOk result (λ found. Reads (belongs Part.Items)
        (λ done. IsItemLine known.now.tables) [] (drop from lines.now) found.0.items
        (drop found.1 lines.now)) }
    ensures inside { IfOk result (λ found. found.1 ≤ length lines.now) }
    ensures on { IfOk result (λ found. from ≤ found.1) }
    ensures err { IfErr result (FaultAt (Stops (belongs Part.Items)
        (λ done. IsItemLine known.now.tables) [] (drop from lines.now)) lines.now) }
{
    let mut rows = Vec::new(alloc);
    let mut at = from;
    while let Some(line) = next_of(Part::Items, lines, at) {
        let Some(row) = read_item(alloc, known, line)? else {
            return Err(bad_table(at));
        };
        keep(&mut rows, row)?;
        at += 1;
    }
    Ok((rows, at))
}

/// Appends an item.
fn keep(rows: &mut Vec<Item>, row: Item) -> Result<(), AllocError>
    ensures { OnOk result (rows.new.items ≡ rows.old.items ++ row ∷ []) }
{
    rows.push(row)?;
    Ok(())
}

/// The instructions from a line on, among so many, and the place behind them.
pub(crate) fn read_instrs(
    alloc: Global,
    known: &Known,
    count: u64,
    lines: &[Line],
    from: usize,
) -> Result<(Code, usize), ListFault>
    requires knows { Knows known.now }
    requires few { length lines.now + 1 < 2 ^ 32 }
    requires inside { from ≤ length lines.now }
    ensures ok { IfOk result (λ found. Reads (belongs Part.Instructions)
        (λ done. IsInstrLine known.now.tables count) [] (drop from lines.now) found.0
        (drop found.1 lines.now)) }
    ensures inside { IfOk result (λ found. found.1 ≤ length lines.now) }
    ensures err { IfErr result (FaultAt (Stops (belongs Part.Instructions)
        (λ done. IsInstrLine known.now.tables count) [] (drop from lines.now)) lines.now) }
{
    let mut rows = Rows::new(alloc);
    let mut at = from;
    while let Some(line) = next_of(Part::Instructions, lines, at) {
        let Some(row) = read_instr(alloc, known, count, line)? else {
            return Err(bad_table(at));
        };
        rows.push(alloc, row)?;
        at += 1;
    }
    Ok((rows, at))
}

/// The members from a line on, and the place behind them.
pub(crate) fn read_members(
    alloc: Global,
    known: &Known,
    lines: &[Line],
    from: usize,
) -> Result<(Group, usize), ListFault>
    requires knows { Knows known.now }
    requires few { length lines.now + 1 < 2 ^ 32 }
    requires inside { from ≤ length lines.now }
    ensures ok { IfOk result (λ found. Reads (belongs Part.Members) (IsMemberLine known.now.tables)
        [] (drop from lines.now) found.0.members.items (drop found.1 lines.now)) }
    ensures are { IfOk result (λ found. AreMembers known.now.tables found.0.members.items
        found.0.ranks found.0.kept.items) }
    ensures inside { IfOk result (λ found. found.1 ≤ length lines.now) }
    ensures on { IfOk result (λ found. from ≤ found.1) }
    ensures err { IfErr result (FaultAt (Stops (belongs Part.Members)
        (IsMemberLine known.now.tables) [] (drop from lines.now)) lines.now) }
{
    let mut group = Group::new(alloc);
    let mut at = from;
    while let Some(line) = next_of(Part::Members, lines, at) {
        if !group.take(alloc, known, line)? {
            return Err(bad_table(at));
        }
        at += 1;
    }
    Ok((group, at))
}
