//! The words that rows keep until their last turn.
ghost use Rattle.std.specs.Prelude.{◌≡◌, ◌<◌, ◌≤◌, length, map};
ghost use Rattle.grid_meaning.specs.Gather.{gathered};
ghost use Rattle.grid_meaning.specs.Local.{processors};
ghost use Rattle.grid_meaning.specs.Stored.{arrangement_of};
ghost use Rattle.node_local.specs.Standing.{entry_of};
ghost use Rattle.row_turn.specs.Together.{IsScan, OfRow};
ghost use Rattle.row_progress.specs.Kept.{AreProcessors, are_front};
ghost use Rattle.row_progress.specs.Walk.{IsAtStart, IsKeeper};

use crate::keepers::{region_in, scan_of};
use crate::sizes::tuples;
use grid_layout::Layout;
use node_form::{Instr, NodeProgram};
use node_local::{Kept, Local};
use node_stages::own_tuples;
use scan_messages::scan_awaits;

/// Whether a message from a processor may have so many words in a `gather`.
fn awaits_in_gather(
    code: &NodeProgram,
    layout: &Layout,
    p: u32,
    local: &Local,
    _truth: bool,
    _array: u32,
    slot: u32,
    from: u32,
    many: u64,
) -> bool
    requires layout { layout.now ≡ arrangement_of code.now }
    requires sender { from < processors code.now }
    requires start { IsAtStart code.now p local.now (Instr.Gather _truth _array slot) }
    ensures { (gathered code.now p _truth _array slot).awaits local.now.local from many ≡ result }
{
    let region = region_in(code, local, slot);
    let own = own_tuples(code, layout, &region, from);
    u128::from(many) == tuples(&own)
}

/// Whether it may have so many in a `scan`.
fn awaits_in_scan(
    code: &NodeProgram,
    layout: &Layout,
    p: u32,
    local: &Local,
    row: &Instr,
    from: u32,
    many: u64,
) -> bool
    requires layout { layout.now ≡ arrangement_of code.now }
    requires sender { from < processors code.now }
    requires scan { IsScan row.now }
    requires start { IsAtStart code.now p local.now row.now }
    ensures { OfRow code.now p row.now (λ together.
        together.awaits local.now.local from many ≡ result) }
{
    let scan = scan_of(row);
    let region = region_in(code, local, scan.slot);
    scan_awaits(code, layout, &scan, &region, from, many)
}

/// Whether a message from a processor may have so many words.
fn keeper_awaits(
    code: &NodeProgram,
    layout: &Layout,
    p: u32,
    local: &Local,
    row: &Instr,
    from: u32,
    many: u64,
) -> bool
    requires layout { layout.now ≡ arrangement_of code.now }
    requires sender { from < processors code.now }
    requires keeper { IsKeeper row.now }
    requires start { IsAtStart code.now p local.now row.now }
    ensures { OfRow code.now p row.now (λ together.
        together.awaits local.now.local from many ≡ result) }
{
    match *row {
        Instr::Gather { truth, array, slot } => {
            awaits_in_gather(code, layout, p, local, truth, array, slot, from, many)
        }
        Instr::Scan { .. } => awaits_in_scan(code, layout, p, local, row, from, many),
        _ => many == 1,
    }
}

/// Whether words are those of the first of some senders, each as many as are awaited.
pub(crate) fn are_front(
    code: &NodeProgram,
    layout: &Layout,
    p: u32,
    local: &Local,
    row: &Instr,
    senders: &[u32],
    kept: &[Kept],
) -> bool
    requires layout { layout.now ≡ arrangement_of code.now }
    requires keeper { IsKeeper row.now }
    requires start { IsAtStart code.now p local.now row.now }
    requires below { AreProcessors (processors code.now) senders.now }
    requires room { length kept.now ≤ length senders.now }
    ensures { OfRow code.now p row.now (λ together.
        are_front (together.awaits local.now.local) senders.now (map entry_of kept.now) ≡ result) }
{
    for i in 0..kept.len() {
        let one = &kept[i];
        let from = senders[i];
        if one.from != from {
            return false;
        }
        let words = one.words.as_slice();
        if !keeper_awaits(code, layout, p, local, row, from, words.len() as u64) {
            return false;
        }
    }
    true
}
