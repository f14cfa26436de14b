//! Values that go through temporaries.
ghost use Rattle.std.specs.Prelude.{◌≡◌, ◌+◌, ◌∷◌, [], IfOk, OnOk};
ghost use Rattle.flat_passes.specs.Draft.{with_rows};
ghost use Rattle.temp_norm.specs.Normalised.{normalised};
ghost use Rattle.temp_norm.specs.Normalised.{with_temporaries};
ghost use Rattle.temp_norm.specs.Pieces.{put_rows, row_written, self_put, through_rows, written};

use crate::reads::{Put, self_put};
use crate::temporaries::{place_among, temporaries};
use flat_passes::node_form::{ArrayRow, ExprOp, ExprRow, Instr, Member, Tables};
use flat_passes::{Draft, NewNumbers, number_of};
use std::alloc::{AllocError, Global};

/// The tables in which no group reads with a shift what it puts: where a loop of one member does,
/// its values go through a temporary. The time is linear in the rows, each counted with the members
/// of its group and their words.
pub fn normalise(alloc: Global, tables: Tables) -> Result<Tables, AllocError>
    ensures { IfOk result (λ made. made ≡ normalised tables) }
{
    let mut made = tables;
    let rows = temporaries(alloc, &made)?;
    let Draft { code, groups } = written(alloc, &made, &rows)?;
    add_temporaries(alloc, &mut made, &rows)?;
    made.code = code;
    made.groups = groups;
    Ok(made)
}

/// The rows with their loops rewritten, and a group for each loop.
fn written(alloc: Global, tables: &Tables, rows: &[ArrayRow]) -> Result<Draft, AllocError>
    ensures { IfOk result (λ draft. draft ≡ written tables.now rows.now) }
{
    let mut draft = Draft::new(alloc);
    let mut numbers = NewNumbers::new(alloc);
    for i in 0..tables.code.len() {
        let row = *tables.code.get(i).unwrap();
        numbers.note(draft.code.len())?;
        write_row(alloc, tables, rows, row, &mut draft)?;
    }
    draft.move_goals(&numbers)?;
    Ok(draft)
}

fn write_row(
    alloc: Global,
    tables: &Tables,
    rows: &[ArrayRow],
    row: Instr,
    draft: &mut Draft,
) -> Result<(), AllocError>
    ensures { OnOk result (draft.new
        ≡ with_rows draft.old (row_written tables.now rows.now row)) }
{
    match row {
        Instr::Loop { slot, group } => match tables.groups.get(u64::from(group)) {
            Some(members) => write_loop(alloc, tables, rows, slot, members.as_slice(), draft),
            None => draft.push_loop(alloc, slot, &[]),
        },
        other => draft.push(alloc, other),
    }
}

fn write_loop(
    alloc: Global,
    tables: &Tables,
    rows: &[ArrayRow],
    slot: u32,
    members: &[Member],
    draft: &mut Draft,
) -> Result<(), AllocError>
    ensures { OnOk result (draft.new ≡ with_rows draft.old
        (through_rows tables.now rows.now slot members.now (self_put tables.now members.now))) }
{
    let Some(put) = self_put(tables, members) else {
        return draft.push_loop(alloc, slot, members);
    };
    let place = place_among(rows, tables.arrays.get(u64::from(put.array)).copied());
    let temporary = number_behind(tables.arrays.len(), place)?;
    let read = number_behind(tables.exprs.len(), place)?;
    write_through(alloc, temporary, read, slot, put, draft)
}

/// A room for the temporary, a loop that puts the values there, and one that puts them from there
/// into the array, under the same mask.
fn write_through(
    alloc: Global,
    temporary: u32,
    read: u32,
    slot: u32,
    put: Put,
    draft: &mut Draft,
) -> Result<(), AllocError>
    ensures { OnOk result (draft.new ≡ with_rows draft.old (put_rows temporary read slot put)) }
{
    let Put {
        array,
        expr,
        mask,
        line,
    } = put;
    draft.push(
        alloc,
        Instr::Room {
            array: temporary,
            slot,
        },
    )?;
    let into = Member::Put {
        array: temporary,
        expr,
        mask,
        line,
    };
    draft.push_loop(alloc, slot, &[into])?;
    let from = Member::Put {
        array,
        expr: read,
        mask,
        line,
    };
    draft.push_loop(alloc, slot, &[from])
}

/// The number that is so many behind another one.
fn number_behind(first: u64, place: usize) -> Result<u32, AllocError>
    ensures { IfOk result (λ number. number ≡ first + place) }
{
    let first = number_of(first)?;
    let place = number_of(place as u64)?;
    first.checked_add(place).ok_or(AllocError)
}

/// Appends the temporaries, and for each an expression that reads it.
fn add_temporaries(alloc: Global, tables: &mut Tables, rows: &[ArrayRow]) -> Result<(), AllocError>
    ensures { OnOk result (tables.new ≡ with_temporaries tables.old rows.now) }
{
    for row in rows {
        add_temporary(alloc, tables, *row)?;
    }
    Ok(())
}

fn add_temporary(alloc: Global, tables: &mut Tables, row: ArrayRow) -> Result<(), AllocError>
    ensures { OnOk result (tables.new ≡ with_temporaries tables.old (row ∷ [])) }
{
    let array = number_of(tables.arrays.len())?;
    let words = Vec::from_slice(alloc, &[ExprOp::Here(array)])?;
    tables.exprs.push(alloc, ExprRow::of(words))?;
    tables.arrays.push(alloc, row)?;
    Ok(())
}
