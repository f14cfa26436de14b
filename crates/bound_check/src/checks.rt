//! Checks that always pass.
ghost use Rattle.std.specs.Prelude.{◌≡◌, ◌++◌, All, IfOk, OnOk, Some, length, true};
ghost use Rattle.std.specs.Option.{IfSome};
ghost use Rattle.std.specs.List.{list_all};
ghost use Rattle.flat_passes.specs.of_node_form.Fits.{Fits, FitsArray, FitsInstr, FitsRegion, storage_of};
ghost use Rattle.flat_passes.specs.of_code_parts.Needs.{is_decided, is_within};
ghost use Rattle.bound_check.specs.Checked.{checked, rows_stayed};
ghost use Rattle.bound_check.specs.Writes.{all_noted, passes_within};

use crate::writes::Writes;
use flat_passes::NewNumbers;
use flat_passes::node_form::{ArrayRow, Code, Instr, Rows, Tables, storage_dim};
use flat_passes::zpl_arrays::is_reference;
use std::alloc::{AllocError, Global};
use zpl_region::{Region, Vec3};

/// The tables without checks of places that always pass: those of slots that `fix` rows alone
/// write, which pass for each of their regions. The time is linear in the rows, each check counted
/// with the rows that write its slot.
pub fn place_checks(alloc: Global, tables: Tables) -> Result<Tables, AllocError>
    requires { Fits tables }
    ensures { IfOk result (λ made. made ≡ checked tables) }
{
    let mut made = tables;
    let writes = Writes::of(alloc, &made)?;
    let code = code_stayed(alloc, &made, &writes)?;
    made.code = code;
    Ok(made)
}

fn code_stayed(alloc: Global, tables: &Tables, writes: &Writes) -> Result<Code, AllocError>
    requires fits { Fits tables.now }
    requires writes { writes.now ≡ all_noted (length tables.now.slots) tables.now.code }
    ensures { IfOk result (λ code. code ≡ (checked tables.now).code) }
{
    let mut code = Rows::new(alloc);
    let mut numbers = NewNumbers::new(alloc);
    for i in 0..tables.code.len() {
        let row = *tables.code.get(i).unwrap();
        numbers.note(code.len())?;
        push_if_stayed(alloc, tables, writes, row, &mut code)?;
    }
    numbers.move_goals(&mut code)?;
    Ok(code)
}

fn push_if_stayed(
    alloc: Global,
    tables: &Tables,
    writes: &Writes,
    row: Instr,
    code: &mut Code,
) -> Result<(), AllocError>
    requires fits { Fits tables.now }
    requires row { FitsInstr tables.now row }
    requires writes { writes.now ≡ all_noted (length tables.now.slots) tables.now.code }
    ensures { OnOk result (code.new ≡ code.old ++ rows_stayed tables.now row) }
{
    if is_decided(tables, writes, row) {
        return Ok(());
    }
    code.push(alloc, row)
}

/// Whether a row is a check of places that passes always: one of a slot that `fix` rows alone
/// write, and which passes for each of their regions. The time is that of a walk over these.
pub fn is_decided(tables: &Tables, writes: &Writes, row: Instr) -> bool
    requires fits { Fits tables.now }
    requires row { FitsInstr tables.now row }
    requires writes { writes.now ≡ all_noted (length tables.now.slots) tables.now.code }
    ensures { result ≡ is_decided tables.now row }
{
    let Instr::Need {
        slot,
        array,
        shift,
        ..
    } = row
    else {
        return false;
    };
    match tables.arrays.get(u64::from(array)) {
        Some(row) => all_pass(row, &shift, writes.list(slot)),
        None => false,
    }
}

/// Whether the reference is within the array for each of the regions, all of which are known.
fn all_pass(row: &ArrayRow, shift: &Vec3, writes: &[Option<Region>]) -> bool
    requires row { FitsArray row.now }
    requires stored { row.now.stored ≡ true }
    requires regions { All (λ write. IfSome write FitsRegion) writes.now }
    ensures { result ≡ list_all (passes_within shift.now row.now) writes.now }
{
    for write in writes {
        if !passes_within(row, shift, write) {
            return false;
        }
    }
    true
}

fn passes_within(row: &ArrayRow, shift: &Vec3, write: &Option<Region>) -> bool
    requires row { FitsArray row.now }
    requires stored { row.now.stored ≡ true }
    requires region { IfSome write.now FitsRegion }
    ensures { result ≡ passes_within shift.now row.now write.now }
{
    match write {
        Some(region) => is_within(row, shift, region),
        None => false,
    }
}

fn is_within(row: &ArrayRow, shift: &Vec3, region: &Region) -> bool
    requires row { FitsArray row.now }
    requires stored { row.now.stored ≡ true }
    requires region { FitsRegion region.now }
    ensures { result ≡ is_within shift.now region.now (Some row.now) }
{
    let storage = storage_of(row);
    is_reference(shift, region, &storage)
}

/// The places that an array has.
fn storage_of(row: &ArrayRow) -> Region
    ensures places { result ≡ storage_of row.now }
    ensures many { length row.now.dims ≡ 3 }
{
    let [planes, rows, columns] = row.dims;
    Region {
        rank: row.rank,
        dims: [storage_dim(planes), storage_dim(rows), storage_dim(columns)],
    }
}
