//! Adding moves one after another.
ghost use Rattle.std.specs.Prelude.{OnOk};
ghost use Rattle.grid_timetable.specs.Trace.{IsSomeTable};
ghost use Rattle.grid_timetable_tests.specs.Playing.{IsFilled, MayPlay};

use grid_timetable::{Table, TableFault};
use std::alloc::Global;

/// A move, as a table is told of it.
#[derive(Clone, Copy)]
pub struct Told {
    pub processor: u32,
    pub sent: Option<u32>,
    pub took: Option<u32>,
}

/// Adds the moves, none of which takes a message that wasn't sent before.
pub fn add_all(alloc: Global, table: &mut Table, moves: &[Told]) -> Result<(), TableFault>
    requires { MayPlay table.old moves.now }
    ensures { OnOk result (IsSomeTable table.new) }
{
    for told in moves {
        table.add(alloc, told.processor, told.sent, told.took)?;
    }
    Ok(())
}

/// Adds so many moves of processor 0 that send and take nothing.
pub fn fill(alloc: Global, table: &mut Table, many: u32) -> Result<(), TableFault>
    requires { IsFilled table.old }
    ensures { OnOk result (IsFilled table.new) }
{
    for _move in 0..many {
        table.add(alloc, 0, None, None)?;
    }
    Ok(())
}
