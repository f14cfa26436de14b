//! The lines of the parts of states.
ghost use Rattle.std.specs.Prelude.{◌≡◌, ◌≢◌, ◌<◌, pos, All, IfOk, Some, length, map, slice_get};
ghost use Rattle.std.specs.Prelude.{take};
ghost use Rattle.zpl_nums.specs.Integer.{IsInteger};
ghost use Rattle.zpl_nums.specs.declared.ends.End.TheVariants.{More};
ghost use Rattle.listing_rows.specs.Rows.{trap_number};
ghost use Rattle.save_lines.specs.declared.lines.SavedLine.{SavedLine as Line};
ghost use Rattle.save_lines.specs.Line.{IsEndWord, IsProcRow, IsSavedLine};
ghost use Rattle.grid_save.specs.Kept.{IsEnding};
ghost use Rattle.grid_save.specs.Written.{box_dim, end_of, flag_number, kept_line, message_line};
ghost use Rattle.grid_save.specs.Written.{proc_row, slot_line};

use grid_links::{Message, Words};
use node_form::Row;
use node_local::Local;
use save_lines::{BoxDim, EndWord, ProcRow, SavedLine};
use std::alloc::{AllocError, Global};
use zpl_nums::{End, TrapKind};
use zpl_region::{Dim, Region};

// ---- numbers

/// A number as lines have it; an error where it is none of 64 bits, as of a row whose number is so
/// great that no memory holds its code.
fn number(n: u64) -> Result<i128, AllocError>
    ensures { IfOk result (λ z. (z ≡ pos n) × IsInteger z) }
{
    if n < 1 << 63 {
        Ok(i128::from(n))
    } else {
        Err(AllocError)
    }
}

/// A law: values in memory are of 64 bits.
pub(crate) fn values_are_integers(values: &[i64])
    ensures { All IsInteger values.now }
{
    for i in 0..values.len() {
        let _value = value_at(values, i);
    }
}

fn value_at(values: &[i64], i: usize) -> i64
    requires { i < length values.now }
    ensures there { slice_get values.now i ≡ Some result }
    ensures range { IsInteger result }
{
    values[i]
}

/// A law: the line of a trap is of 32 bits.
pub(crate) fn traps_have_lines(ended: Option<End>)
    ensures { ended ≢ Some More → IsEnding ended }
{
    if let Some(End::Trap(_kind, line)) = ended {
        let _line = line;
    }
}

// ---- where a processor stands

fn trap_number(kind: TrapKind) -> i128
    ensures is { result ≡ pos (trap_number kind) }
    ensures range { IsInteger result }
{
    match kind {
        TrapKind::DivideByZero => 1,
        TrapKind::OutsideStorage => 2,
        TrapKind::RegionLimit => 3,
        TrapKind::RegionMismatch => 4,
    }
}

fn end_of(ended: Option<End>) -> EndWord
    ensures is { result ≡ end_of ended }
    ensures range { IsEndWord result }
{
    match ended {
        None | Some(End::More) => EndWord::Going,
        Some(End::Done) => EndWord::Done,
        Some(End::Trap(kind, line)) => EndWord::Trap(trap_number(kind), i128::from(line)),
    }
}

fn flag_number(flag: Option<u64>) -> Result<i128, AllocError>
    ensures { IfOk result (λ z. (z ≡ flag_number flag) × IsInteger z) }
{
    match flag {
        Some(member) => number(member),
        None => Ok(-1),
    }
}

/// Where a processor stands. An error comes where a number is none of 64 bits, as of code that no
/// memory holds.
pub(crate) fn proc_row(p: u32, local: &Local) -> Result<ProcRow, AllocError>
    ensures { IfOk result (λ row. (row ≡ proc_row p local.now.local) × IsProcRow row) }
{
    Ok(ProcRow {
        processor: i128::from(p),
        at: number(local.at())?,
        made: number(local.made())?,
        index: number(local.index())?,
        member: number(local.member())?,
        flag: flag_number(local.flag())?,
        end: end_of(local.ending()),
    })
}

// ---- lines of values

/// As many of three dimensions, from the first one on, as the rank says.
fn front(rank: u8, dims: &[Dim; 3]) -> &[Dim]
    ensures { result.now ≡ take rank dims.now }
{
    &dims[..usize::from(rank).min(3)]
}

/// The line of a slot.
pub(crate) fn slot_line(alloc: Global, region: &Region) -> Result<SavedLine, AllocError>
    ensures { IfOk result (λ line. line ≡ slot_line region.now) }
{
    Ok(SavedLine::Slot(Row::of(Vec::from_slice(alloc, front(region.rank, &region.dims))?)))
}

fn box_dim(dim: Dim) -> BoxDim
    ensures { result ≡ box_dim dim }
{
    match dim {
        Dim::Range { lo, hi, .. } => BoxDim::Range(lo, hi),
        Dim::Flood => BoxDim::Star,
    }
}

fn box_dims(alloc: Global, dims: &[Dim]) -> Result<Vec<BoxDim>, AllocError>
    ensures { IfOk result (λ boxes. boxes.items ≡ map box_dim dims.now) }
{
    let mut boxes = Vec::new(alloc);
    for dim in dims {
        boxes.push(box_dim(*dim))?;
    }
    Ok(boxes)
}

/// The line of an array, of these places and these values.
pub(crate) fn store_line(
    alloc: Global,
    places: &Region,
    values: Vec<i64>,
) -> Result<SavedLine, AllocError>
    ensures { IfOk result (λ line. line
        ≡ Line.Store (map box_dim (take places.now.rank places.now.dims)) values.items) }
{
    let dims = box_dims(alloc, front(places.rank, &places.dims))?;
    Ok(SavedLine::Store(Row::of(dims), Row::of(values)))
}

/// The line of words that are kept of a processor's message.
pub(crate) fn kept_line(alloc: Global, from: u32, words: &Words) -> Result<SavedLine, AllocError>
    ensures { IfOk result (λ line. (line ≡ kept_line (from, words.now)) × IsSavedLine line) }
{
    values_are_integers(words.as_slice());
    let words = Row::of(Vec::from_slice(alloc, words.as_slice())?);
    Ok(SavedLine::Kept(i128::from(from), words))
}

/// The line of a message to a processor. An error comes where its tag is none of 64 bits, as of
/// code that no memory holds.
pub(crate) fn message_line(
    alloc: Global,
    to: u32,
    message: &Message,
) -> Result<SavedLine, AllocError>
    ensures { IfOk result (λ line. (line ≡ message_line to message.now) × IsSavedLine line) }
{
    values_are_integers(message.words.as_slice());
    let tag = number(message.tag)?;
    let words = Row::of(Vec::from_slice(alloc, message.words.as_slice())?);
    Ok(SavedLine::Msg(i128::from(to), tag, words))
}
