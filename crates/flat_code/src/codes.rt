//! The node code of a flat program.
ghost use Rattle.std.specs.Prelude.{◌≡◌, IfErr, IfOk, OnOk};
ghost use Rattle.node_form.specs.Fits.{Fits};
ghost use Rattle.node_form.specs.Grid.{IsGrid};
ghost use Rattle.code_layout.specs.Room.{HasRoom};
ghost use Rattle.stored_shifts.specs.Stored.{ShiftsAreStored};
ghost use Rattle.flat_code.specs.Passes.{Refuses, node_tables};

use crate::asked::{improve, settle};
use crate::builds::Build;
use crate::faults::FlatFault;
use bound_check::place_checks;
use code_layout::has_room;
use comm_needs::add_needs;
use flat_form::Flat;
use node_emit::emit;
use node_form::{NodeProgram, Tables};
use std::alloc::Global;
use temp_norm::normalise;

/// The node code of a flat program, for a build: its passes one behind the other, those of the
/// options where they are asked for. They take a time linear in the program, but for a slot that
/// many rows fill and many checks name.
pub fn code_of(alloc: Global, flat: Flat, build: &Build) -> Result<NodeProgram, FlatFault>
    requires grid { IsGrid build.now.grid }
    requires stored { ShiftsAreStored flat }
    ensures code { IfOk result (λ code. code ≡ node_tables build.now flat) }
    ensures room { OnOk result (HasRoom (node_tables build.now flat)) }
    ensures refused { IfErr result (Refuses (node_tables build.now flat)) }
{
    let normal = normalise(alloc, flat.into_tables())?;
    let checked = place_checks(alloc, normal)?;
    let settled = settle(alloc, checked, &build.options)?;
    let plan = add_needs(alloc, settled, &build.grid)?;
    let improved = improve(alloc, plan, &build.options, build.links)?;
    program_of(alloc, emit(improved, &build.grid, build.options.tree))
}

// The program of tables that fit, where there is room for their arrays.
fn program_of(alloc: Global, tables: Tables) -> Result<NodeProgram, FlatFault>
    requires { Fits tables }
    ensures code { IfOk result (λ code. code ≡ tables) }
    ensures room { OnOk result (HasRoom tables) }
    ensures refused { IfErr result (Refuses tables) }
{
    let code = NodeProgram::of(tables);
    if !has_room(alloc, &code)? {
        return Err(FlatFault::TooMuchStorage);
    }
    Ok(code)
}
