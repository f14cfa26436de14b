//! Turns that send and take no message.
ghost use Rattle.std.specs.Prelude.{◌≡◌, ◌+◌, ◌<◌, ◌^◌, IfOk, None, OnErr, Some, length, slice_get};
ghost use Rattle.grid_links.specs.Network.{Network};
ghost use Rattle.grid_meaning.specs.Collective.{Alone, Last, stage_of};
ghost use Rattle.grid_meaning.specs.State.{HasThree};
ghost use Rattle.grid_meaning.specs.Stored.{arrangement_of};
ghost use Rattle.node_local.specs.Workplace.{IsReady};
ghost use Rattle.node_turn.specs.Turned.{IsTurn, turn_over};
ghost use Rattle.row_turn.specs.Placed.{IsAtRow};
ghost use Rattle.row_turn.specs.Together.{IsAlone, IsTogether, OfRow};

use crate::answers::told;
use crate::own::own_turn;
use crate::steps::Step;
use grid_layout::Layout;
use node_form::{ArrayDim, DimRow, Instr, NodeProgram};
use node_local::Local;
use row_turn::{OwnTurn, alone_turn, last_turn};
use std::alloc::{AllocError, Global};
use zpl_nums::End;
use zpl_region::Dim;

// ---- arrays of three

#[inline(always)]
fn see_dims(dims: &[Dim; 3])
    ensures { length dims.now ≡ 3 }
{
    let [_planes, _rows, _columns] = *dims;
}

#[inline(always)]
fn see_parts(parts: &[DimRow; 3])
    ensures { length parts.now ≡ 3 }
{
    let [_planes, _rows, _columns] = *parts;
}

#[inline(always)]
fn see_array(dims: &[ArrayDim; 3])
    ensures { length dims.now ≡ 3 }
{
    let [_planes, _rows, _columns] = *dims;
}

/// Sees that what a row names has three dimensions, as its type says.
#[inline(always)]
pub(crate) fn see_three(code: &NodeProgram, row: &Instr)
    ensures { HasThree code.now row.now }
{
    match row {
        Instr::Fix { region, .. } => see_dims(&region.dims),
        Instr::Dims { parts, .. } => see_parts(parts),
        Instr::Room { array, .. } => {
            if let Some(row) = code.tables().arrays.get(u64::from(*array)) {
                see_array(&row.dims);
            }
        }
        _ => {}
    }
}

// ---- turns

/// The turn of a processor that is behind the last row: it ends.
pub(crate) fn end_step(code: &NodeProgram, p: u32, local: &mut Local) -> Step
    requires ready { IsReady code.now p local.old }
    requires running { local.old.local.ended ≡ None }
    requires behind { slice_get code.now.code local.old.local.at ≡ None }
    ensures { (links : Network) → IsTurn code.now p local.old local.new links links
        (turn_over code.now p local.old.local links) result }
{
    let _fits = code.tables();
    local.end(End::Done);
    told(OwnTurn::Moves)
}

/// The turn of a processor at a row that needs no other one. For want of memory nothing changes.
pub(crate) fn own_step(
    alloc: Global,
    code: &NodeProgram,
    layout: &Layout,
    p: u32,
    local: &mut Local,
    row: &Instr,
) -> Result<Step, AllocError>
    requires layout { layout.now ≡ arrangement_of code.now }
    requires alone { IsAlone row.now }
    requires at { IsAtRow code.now p local.old row.now }
    ensures turn { IfOk result (λ step. (links : Network) → IsTurn code.now p local.old local.new
        links links (turn_over code.now p local.old.local links) step) }
    ensures err { OnErr result (local.new ≡ local.old) }
{
    let _fits = code.tables();
    see_three(code, row);
    let turn = own_turn(alloc, code, layout, p, local, row)?;
    Ok(told(turn))
}

/// The turn of a processor that changes its own state in a row in which processors work together.
/// For want of memory nothing changes.
pub(crate) fn alone_step(
    alloc: Global,
    code: &NodeProgram,
    layout: &Layout,
    p: u32,
    local: &mut Local,
    row: &Instr,
) -> Result<Step, AllocError>
    requires layout { layout.now ≡ arrangement_of code.now }
    requires together { IsTogether row.now }
    requires at { IsAtRow code.now p local.old row.now }
    requires stage { OfRow code.now p row.now (λ together.
        stage_of together local.old.local ≡ Some Alone) }
    requires few { local.old.local.made + 1 < 2 ^ 64 }
    ensures turn { IfOk result (λ step. (links : Network) → IsTurn code.now p local.old local.new
        links links (turn_over code.now p local.old.local links) step) }
    ensures err { OnErr result (local.new ≡ local.old) }
{
    let _fits = code.tables();
    see_three(code, row);
    let turn = alone_turn(alloc, code, layout, p, local, row)?;
    Ok(told(turn))
}

/// The last turn of a processor in such a row. For want of memory nothing changes.
pub(crate) fn last_step(
    alloc: Global,
    code: &NodeProgram,
    layout: &Layout,
    p: u32,
    local: &mut Local,
    row: &Instr,
) -> Result<Step, AllocError>
    requires layout { layout.now ≡ arrangement_of code.now }
    requires together { IsTogether row.now }
    requires at { IsAtRow code.now p local.old row.now }
    requires stage { OfRow code.now p row.now (λ together.
        stage_of together local.old.local ≡ Some Last) }
    ensures turn { IfOk result (λ step. (links : Network) → IsTurn code.now p local.old local.new
        links links (turn_over code.now p local.old.local links) step) }
    ensures err { OnErr result (local.new ≡ local.old) }
{
    let _fits = code.tables();
    see_three(code, row);
    let turn = last_turn(alloc, code, layout, p, local, row)?;
    Ok(told(turn))
}
