//! Which words a processor may keep.
ghost use Rattle.std.specs.Prelude.{◌≡◌, ◌↔◌, ℕ, ℤ, List, IfOk, IsTrue, is_some, map};
ghost use Rattle.grid_meaning.specs.Stored.{arrangement_of};
ghost use Rattle.node_local.specs.Standing.{entry_of};
ghost use Rattle.grid_save.specs.Reads.{IsFar, MayBegin, MayKeep};
ghost use Rattle.row_progress.specs.Begun.{AreTold, IsBegun, stands};
ghost use Rattle.row_progress.specs.May.{keeping_of};
ghost use Rattle.row_progress.specs.Next.{IsNext};

use crate::kinds::Keeping;
use crate::progress::Progress;
use crate::senders::senders;
use crate::words::are_front;
use grid_layout::Layout;
use node_form::{Instr, NodeProgram, rows_fit};
use node_local::{Kept, Local};
use std::alloc::{AllocError, Global};

/// Which words a row keeps.
pub(crate) fn keeping_of(row: &Instr) -> Keeping
    ensures { result ≡ keeping_of row.now }
{
    match *row {
        Instr::Scan { .. }
        | Instr::Gather { .. }
        | Instr::Vote { .. }
        | Instr::TreeVote { .. }
        | Instr::Fold { .. }
        | Instr::TreeFold { .. } => Keeping::Words,
        Instr::Remap { .. } => Keeping::Requests,
        _ => Keeping::Nothing,
    }
}

/// Whether these are the first of some words that the processor may keep in a row that keeps them
/// until its last turn.
pub(crate) fn begins_words(
    alloc: Global,
    code: &NodeProgram,
    layout: &Layout,
    p: u32,
    local: &mut Local,
    row: &Instr,
    far: &Progress,
    kept: &[Kept],
) -> Result<bool, AllocError>
    requires layout { layout.now ≡ arrangement_of code.now }
    requires begun { IsBegun code.now p local.old }
    requires next { IsNext code.now local.old.local row.now }
    requires words { keeping_of row.now ≡ Keeping.Words }
    requires far { (told : List (ℕ × List ℤ))
        × IsFar code.now p (stands local.old.local far.now) told (is_some local.old.local.ended) }
    ensures begins { IfOk result (λ yes. IsTrue yes
        ↔ MayBegin code.now p (stands local.old.local far.now) (map entry_of kept.now)) }
    ensures same { IfOk result (λ _. local.new ≡ local.old) }
{
    rows_fit();
    let _fits = code.tables();
    let list = senders(alloc, code, layout, p, local, row, far.made)?;
    let numbers = list.as_slice();
    if kept.len() > numbers.len() {
        return Ok(false);
    }
    Ok(are_front(code, layout, p, local, row, numbers, kept))
}

/// Whether the processor may keep just these words in such a row.
pub(crate) fn keeps_words(
    alloc: Global,
    code: &NodeProgram,
    layout: &Layout,
    p: u32,
    local: &mut Local,
    row: &Instr,
    far: &Progress,
    kept: &[Kept],
) -> Result<bool, AllocError>
    requires layout { layout.now ≡ arrangement_of code.now }
    requires begun { IsBegun code.now p local.old }
    requires values { AreTold code.now p (stands local.old.local far.now) }
    requires next { IsNext code.now local.old.local row.now }
    requires words { keeping_of row.now ≡ Keeping.Words }
    requires far { IsFar code.now p (stands local.old.local far.now) (map entry_of kept.now)
        (is_some local.old.local.ended) }
    ensures keeps { IfOk result (λ yes. IsTrue yes
        ↔ MayKeep code.now p (stands local.old.local far.now) (map entry_of kept.now)) }
    ensures same { IfOk result (λ _. local.new ≡ local.old) }
{
    rows_fit();
    let _fits = code.tables();
    let list = senders(alloc, code, layout, p, local, row, far.made)?;
    let numbers = list.as_slice();
    if numbers.len() != kept.len() {
        return Ok(false);
    }
    Ok(are_front(code, layout, p, local, row, numbers, kept))
}
