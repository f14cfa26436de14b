//! The tables that a draft becomes.
ghost use Rattle.std.specs.Prelude.{◌≡◌, ◌++◌, IfOk, OnOk, length, map};
ghost use Rattle.zpl_lowering.specs.Tables.{stored_rows, temp_row};
ghost use Rattle.lower_draft.specs.Drafted.{finished};
ghost use Rattle.lower_draft.specs.Spread.{fringed_rows};

use crate::draft::Draft;
use crate::floods::Flood;
use crate::fringes::{Fringe, fringes_of, stored_row};
use crate::shifts::Shifted;
use std::alloc::{AllocError, Global};
use zpl_lowering::node_form::{ArrayRow, Arrays, Instr, Rows, Tables};
use zpl_region::Region;

/// The rows of stored arrays with their fringes.
fn fringed_rows(
    alloc: Global,
    storages: &[Region],
    fringes: &[[Fringe; 3]],
) -> Result<Arrays, AllocError>
    requires { length storages.now ≡ length fringes.now }
    ensures { IfOk result (λ rows. rows ≡ fringed_rows fringes.now 0 storages.now) }
{
    let mut rows = Rows::new(alloc);
    for k in 0..storages.len() {
        rows.push(alloc, stored_row(&storages[k], fringes[k]))?;
    }
    Ok(rows)
}

/// The rows of stored arrays, with the fringes that these shifts need.
fn rows_over(alloc: Global, storages: &[Region], shifts: &[Shifted]) -> Result<Arrays, AllocError>
    ensures { IfOk result (λ rows. rows ≡ stored_rows 0 shifts.now storages.now) }
{
    let fringes = fringes_of(alloc, storages.len(), shifts)?;
    let rows = fringed_rows(alloc, storages, fringes.as_slice())?;
    Ok(rows)
}

/// Appends the rows of temporaries.
fn add_temps(alloc: Global, rows: &mut Arrays, temps: &[Flood]) -> Result<(), AllocError>
    ensures { OnOk result (rows.new ≡ rows.old ++ map temp_row temps.now) }
{
    for flood in temps {
        rows.push(alloc, flood.temp_row())?;
    }
    Ok(())
}

impl Draft {
    /// The tables: the end stands behind all rows, and arrays come with their fringes before the
    /// copies of reads that wrap round, and these before temporaries.
    pub fn into_tables(self) -> Result<Tables, AllocError>
        ensures { IfOk result (λ tables. tables ≡ finished self) }
    {
        let Draft {
            alloc,
            mut tables,
            next,
            slots,
            arrays,
            copies,
            later,
            temps,
            shifts,
        } = self;
        let mut storages = arrays;
        storages.extend_from_slice(copies.as_slice())?;
        storages.extend_from_slice(later.as_slice())?;
        let mut rows = rows_over(alloc, storages.as_slice(), shifts.as_slice())?;
        add_temps(alloc, &mut rows, temps.as_slice())?;
        tables.scalars = next.scalars;
        tables.slots = Rows::of(slots);
        tables.arrays = rows;
        tables.code.push(alloc, Instr::End)?;
        Ok(tables)
    }
}
