//! The rows.
ghost use Rattle.std.specs.Prelude.{◌≡◌, ◌<◌, length, All, true, slice_get};
ghost use Rattle.std.specs.Option.{IsSomeAnd};
ghost use Rattle.grid_meaning.specs.Turn.{registers_of};
ghost use Rattle.node_control.specs.Moving.{MovesBy};
ghost use Rattle.node_control.specs.Running.{CanRun, IsControlRow};
ghost use Rattle.node_form.specs.Control.{control};
ghost use Rattle.node_form.specs.Fits.{FitsInstr, FitsPart, HasArray, HasScalarExpr, HasSlot};
ghost use Rattle.node_form.specs.Fits.{IsStored};
ghost use Rattle.zpl_region.specs.Dim.{HasStep};

use crate::dims::region_dims;
use crate::lookups::{array_at, rank_at};
use crate::moves::{branch, check, go_on, jump, trap};
use crate::regions::{conforms, formed, place, region_in, storage_of};
use crate::values::scalar_value;
use node_form::{DimRow, Instr, NodeProgram, RegionForm, SameKind, rows_fit};
use node_local::Local;
use zpl_arrays::{border_conforms, is_reference};
use zpl_nums::{End, TrapKind};
use zpl_region::{Region, Vec3};

/// The scalar becomes the expression's value. A zero divisor is a trap.
fn set(code: &NodeProgram, local: &mut Local, scalar: u32, expr: u32, line: u32)
    requires can { CanRun code.now local.old }
    requires fits { FitsInstr code.now (Instr.Set scalar expr line) }
    ensures { MovesBy (control code.now (registers_of local.old.local) (Instr.Set scalar expr line))
        local.old local.new }
{
    match scalar_value(code, local, expr) {
        Some(value) => {
            local.set_scalar(scalar, value);
            go_on(code, local);
        }
        None => trap(local, TrapKind::DivideByZero, line),
    }
}

/// Goes to the goal where the expression's value is 0. A zero divisor is a trap.
fn unless(code: &NodeProgram, local: &mut Local, expr: u32, goal: u32, line: u32)
    requires can { CanRun code.now local.old }
    requires fits { FitsInstr code.now (Instr.Unless expr goal line) }
    ensures { MovesBy (control code.now (registers_of local.old.local)
        (Instr.Unless expr goal line))
        local.old local.new }
{
    match scalar_value(code, local, expr) {
        Some(value) => branch(code, local, value != 0, goal),
        None => trap(local, TrapKind::DivideByZero, line),
    }
}

/// The slot becomes this region.
fn fix(code: &NodeProgram, local: &mut Local, slot: u32, region: Region)
    requires can { CanRun code.now local.old }
    requires fits { FitsInstr code.now (Instr.Fix slot region) }
    ensures { MovesBy (control code.now (registers_of local.old.local) (Instr.Fix slot region))
        local.old local.new }
{
    local.set_slot(slot, region);
    go_on(code, local);
}

/// The slot becomes the region of these dimensions. A zero divisor is a trap, and so is a region
/// past the limit.
fn dims(code: &NodeProgram, local: &mut Local, slot: u32, parts: &[DimRow; 3], line: u32)
    requires can { CanRun code.now local.old }
    requires fits { FitsInstr code.now (Instr.Dims slot parts.now line) }
    ensures { MovesBy (control code.now (registers_of local.old.local)
        (Instr.Dims slot parts.now line))
        local.old local.new }
{
    rows_fit();
    let rank = rank_at(code.tables(), slot);
    match region_dims(code, local, rank, parts) {
        Some(dims) => place(code, local, slot, line, Region::new(rank, dims)),
        None => trap(local, TrapKind::DivideByZero, line),
    }
}

/// The slot becomes the region that a form makes of another slot's. One past the limit is a trap.
fn form_slot(
    code: &NodeProgram,
    local: &mut Local,
    form: RegionForm,
    slot: u32,
    from: u32,
    shift: Vec3,
    line: u32,
)
    requires can { CanRun code.now local.old }
    requires fits { FitsInstr code.now (Instr.Formed form slot from shift line) }
    ensures { MovesBy (control code.now (registers_of local.old.local)
        (Instr.Formed form slot from shift line)) local.old local.new }
{
    let region = region_in(code, local, from);
    place(code, local, slot, line, formed(form, &region, shift));
}

/// A trap where the slot's region, moved by the vector, isn't within the array's storage.
fn need(code: &NodeProgram, local: &mut Local, slot: u32, array: u32, shift: &Vec3, line: u32)
    requires can { CanRun code.now local.old }
    requires fits { FitsInstr code.now (Instr.Need slot array shift.now line) }
    ensures { MovesBy (control code.now (registers_of local.old.local)
        (Instr.Need slot array shift.now line)) local.old local.new }
{
    rows_fit();
    let region = region_in(code, local, slot);
    let storage = storage_of(array_at(code.tables(), array));
    let stands = is_reference(shift, &region, &storage);
    check(code, local, stands, TrapKind::OutsideStorage, line);
}

/// A trap where the two regions don't conform.
fn same(code: &NodeProgram, local: &mut Local, target: u32, source: u32, kind: SameKind, line: u32)
    requires can { CanRun code.now local.old }
    requires fits { FitsInstr code.now (Instr.Same target source kind line) }
    ensures { MovesBy (control code.now (registers_of local.old.local)
        (Instr.Same target source kind line)) local.old local.new }
{
    let region = region_in(code, local, target);
    let other = region_in(code, local, source);
    let stands = conforms(kind, &region, &other);
    check(code, local, stands, TrapKind::RegionMismatch, line);
}

/// A trap where the border on this side of the slot's region doesn't conform.
fn fits(code: &NodeProgram, local: &mut Local, slot: u32, shift: &Vec3, line: u32)
    requires can { CanRun code.now local.old }
    requires fits { FitsInstr code.now (Instr.Fits slot shift.now line) }
    ensures { MovesBy (control code.now (registers_of local.old.local)
        (Instr.Fits slot shift.now line))
        local.old local.new }
{
    let region = region_in(code, local, slot);
    let stands = border_conforms(shift, &region);
    check(code, local, stands, TrapKind::RegionMismatch, line);
}

/// Makes the turn of a row that needs scalars and slots alone: a move without a message. It takes
/// no memory.
pub fn run_control(code: &NodeProgram, local: &mut Local, row: &Instr)
    requires row { IsControlRow row.now }
    requires fits { FitsInstr code.now row.now }
    requires can { CanRun code.now local.old }
    ensures { MovesBy (control code.now (registers_of local.old.local) row.now)
        local.old local.new }
{
    match *row {
        Instr::Set { scalar, expr, line } => set(code, local, scalar, expr, line),
        Instr::Fix { slot, region } => fix(code, local, slot, region),
        Instr::Dims { slot, parts, line } => dims(code, local, slot, &parts, line),
        Instr::Formed {
            form,
            slot,
            from,
            shift,
            line,
        } => form_slot(code, local, form, slot, from, shift, line),
        Instr::Need {
            slot,
            array,
            shift,
            line,
        } => need(code, local, slot, array, &shift, line),
        Instr::Same {
            target,
            source,
            kind,
            line,
        } => same(code, local, target, source, kind, line),
        Instr::Fits { slot, shift, line } => fits(code, local, slot, &shift, line),
        Instr::Jump { goal } => jump(local, goal),
        Instr::Unless { expr, goal, line } => unless(code, local, expr, goal, line),
        Instr::Trap { kind, line } => trap(local, kind, line),
        Instr::End | _ => local.end(End::Done),
    }
}
