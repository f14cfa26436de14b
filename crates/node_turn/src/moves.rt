//! Moves that a processor makes by itself.
ghost use Rattle.std.specs.Prelude.{◌≡◌, ◌<◌, IsTrue, Some, false};
ghost use Rattle.grid_links.specs.Network.{Network};
ghost use Rattle.grid_meaning.specs.Local.{processors};
ghost use Rattle.grid_meaning.specs.Stored.{arrangement_of};
ghost use Rattle.grid_meaning.specs.Turn.{act_at};
ghost use Rattle.row_turn.specs.of_node_control.Moving.{MovesOn};
ghost use Rattle.row_turn.specs.of_node_control.Running.{IsControlRow};
ghost use Rattle.node_local.specs.Workplace.{IsReady};
ghost use Rattle.node_turn.specs.Turned.{IsMade, turn_over};
ghost use Rattle.node_turn.specs.declared.steps.Traffic.TheVariants.{Quiet};
ghost use Rattle.row_turn.specs.Placed.{IsAtRow};

use crate::silent::see_three;
use grid_layout::Layout;
use grid_meaning::states_are_kept;
use node_form::{Instr, NodeProgram, rows_fit};
use node_local::Local;
use node_loop::{LocalTurn, loop_turn};
use row_turn::node_control::run_control;

/// Makes the move of a row that needs scalars and slots alone.
#[inline(always)]
fn control_moves(code: &NodeProgram, p: u32, local: &mut Local, row: &Instr)
    requires row { IsControlRow row.now }
    requires at { IsAtRow code.now p local.old row.now }
    ensures { MovesOn (act_at code.now p local.old.local (Some row.now)) local.old local.new }
{
    let _rows = code.tables().code.len();
    run_control(code, local, row);
}

/// Makes the move of `loop`, where its turn is one; answers whether it is.
#[inline(always)]
fn loop_moves(
    code: &NodeProgram,
    layout: &Layout,
    p: u32,
    local: &mut Local,
    slot: u32,
    group: u32,
) -> bool
    requires layout { layout.now ≡ arrangement_of code.now }
    requires at { IsAtRow code.now p local.old (Instr.Loop slot group) }
    ensures moves { IsTrue result →
        MovesOn (act_at code.now p local.old.local (Some (Instr.Loop slot group))) local.old
        local.new }
    ensures same { (result ≡ false) → local.new ≡ local.old }
{
    let _rows = code.tables().code.len();
    match loop_turn(local, code, layout, p, slot, group) {
        LocalTurn::Moves => true,
        LocalTurn::Unheld | LocalTurn::Undefined => false,
    }
}

/// Makes the move of a row, if it is one of these; answers whether it is.
#[inline(always)]
fn row_moves(code: &NodeProgram, layout: &Layout, p: u32, local: &mut Local, row: &Instr) -> bool
    requires layout { layout.now ≡ arrangement_of code.now }
    requires at { IsAtRow code.now p local.old row.now }
    ensures moves { IsTrue result →
        MovesOn (act_at code.now p local.old.local (Some row.now)) local.old local.new }
    ensures same { (result ≡ false) → local.new ≡ local.old }
{
    match *row {
        Instr::Loop { slot, group } => loop_moves(code, layout, p, local, slot, group),
        Instr::Set { .. }
        | Instr::Fix { .. }
        | Instr::Dims { .. }
        | Instr::Formed { .. }
        | Instr::Need { .. }
        | Instr::Same { .. }
        | Instr::Fits { .. }
        | Instr::Jump { .. }
        | Instr::Unless { .. }
        | Instr::Trap { .. }
        | Instr::End => {
            control_moves(code, p, local, row);
            true
        }
        _ => false,
    }
}

/// Makes the next move of processor p, where it is a loop's or needs scalars and slots alone;
/// answers whether it did. Where it didn't, nothing has changed. It takes no memory.
#[inline(always)]
pub fn moves_alone(code: &NodeProgram, layout: &Layout, p: u32, local: &mut Local) -> bool
    requires layout { layout.now ≡ arrangement_of code.now }
    requires processor { p < processors code.now }
    requires ready { IsReady code.now p local.old }
    ensures made { IsTrue result → (links : Network) → IsMade code.now p
        (turn_over code.now p local.old.local links) Quiet local.old local.new links links }
    ensures same { (result ≡ false) → local.new ≡ local.old }
{
    if local.ending().is_some() {
        return false;
    }
    states_are_kept();
    rows_fit();
    let Some(row) = code.tables().code.get(local.at()) else {
        return false;
    };
    see_three(code, row);
    row_moves(code, layout, p, local, row)
}
