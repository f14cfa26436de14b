//! Rows that print a text or the value of an expression.
ghost use Rattle.std.specs.Prelude.{◌≡◌, ◌<◌, length, IfOk, OnErr, Some};
ghost use Rattle.grid_meaning.specs.Action.{prints};
ghost use Rattle.grid_meaning.specs.Turn.{act_at};
ghost use Rattle.node_control.specs.Moving.{Shows};
ghost use Rattle.node_control.specs.Running.{CanRun, IsPrintRow};
ghost use Rattle.node_control.specs.Showing.{value_shown};
ghost use Rattle.node_form.specs.Fits.{FitsInstr};
ghost use Rattle.zpl_arrays.specs.ArrayText.{truth_text};

use crate::lookups::text_at;
use crate::moves::{go_on, trap};
use crate::values::scalar_value;
use node_form::{Instr, NodeProgram};
use node_local::Local;
use std::alloc::{AllocError, Global};
use zpl_io::{Bytes, write_number};
use zpl_nums::TrapKind;

/// The word for a truth value.
fn truth_text(value: i64) -> &'static [u8]
    ensures { result.now ≡ truth_text value }
{
    if value != 0 { b"true" } else { b"false" }
}

/// What processor p shows of a text: the text on processor 0, where it has bytes, before the row is
/// left; else nothing, and the row is left.
fn show(
    alloc: Global,
    code: &NodeProgram,
    local: &mut Local,
    p: u32,
    text: &[u8],
) -> Result<Option<Bytes>, AllocError>
    requires { local.old.local.at < length code.now.code }
    ensures shown { IfOk result (Shows (prints p local.old.local text.now) local.old local.new) }
    ensures err { OnErr result (local.new ≡ local.old) }
{
    if p != 0 || text.is_empty() {
        go_on(code, local);
        return Ok(None);
    }
    let bytes = text.to_vec(alloc)?;
    Ok(Some(Bytes::of(bytes)))
}

/// Shows a value in decimal, or as a truth value. A zero divisor is a trap at line 0.
fn show_value(
    alloc: Global,
    code: &NodeProgram,
    local: &mut Local,
    p: u32,
    expr: u32,
    truth: bool,
) -> Result<Option<Bytes>, AllocError>
    requires can { CanRun code.now local.old }
    requires fits { FitsInstr code.now (Instr.Number expr) }
    ensures shown { IfOk result (Shows (value_shown truth code.now p local.old.local expr) local.old
        local.new) }
    ensures err { OnErr result (local.new ≡ local.old) }
{
    let Some(value) = scalar_value(code, local, expr) else {
        trap(local, TrapKind::DivideByZero, 0);
        return Ok(None);
    };
    if truth {
        return show(alloc, code, local, p, truth_text(value));
    }
    let mut digits = Vec::new(alloc);
    write_number(alloc, value, &mut digits)?;
    show(alloc, code, local, p, digits.as_slice())
}

/// Makes the turn of a row that prints. Answers the bytes that processor p prints, if there are
/// any: then nothing has changed yet, and the turn is to be ended by going on to the next row. For
/// want of memory nothing changes.
pub fn run_print(
    alloc: Global,
    code: &NodeProgram,
    local: &mut Local,
    p: u32,
    row: &Instr,
) -> Result<Option<Bytes>, AllocError>
    requires row { IsPrintRow row.now }
    requires fits { FitsInstr code.now row.now }
    requires can { CanRun code.now local.old }
    ensures shown { IfOk result (Shows (act_at code.now p local.old.local (Some row.now)) local.old
        local.new) }
    ensures err { OnErr result (local.new ≡ local.old) }
{
    match *row {
        Instr::Print { text } => show(alloc, code, local, p, text_at(code.tables(), text)),
        Instr::Number { expr } => show_value(alloc, code, local, p, expr, false),
        Instr::Truth { expr } => show_value(alloc, code, local, p, expr, true),
        _ => Ok(None),
    }
}
