//! The states of all processors.
ghost use Rattle.std.specs.Prelude.{◌≡◌, ◌+◌, ◌^◌, ◌<◌, ◌≤◌, IfErr, IfOk, length, map};
ghost use Rattle.grid_meaning.specs.Local.{processors};
ghost use Rattle.grid_meaning.specs.Stored.{arrangement_of};
ghost use Rattle.save_lines.specs.Line.{AreSavedLines};
ghost use Rattle.save_reading.specs.of_grid_save.Reads.{BreaksGrid, ReadsGrid};
ghost use Rattle.save_reading.specs.Fault.{FaultAt};
ghost use Rattle.state_reading.specs.Read.{AreReady, state_in};

use crate::states::{ReadState, read_state};
use grid_layout::Layout;
use node_form::NodeProgram;
use save_lines::SavedLine;
use save_reading::{StateFault, bad_state, keep, processor_count};
use std::alloc::Global;

/// The states of all processors, from all lines.
pub fn read_states(
    alloc: Global,
    code: &NodeProgram,
    layout: &Layout,
    lines: &[SavedLine],
) -> Result<Vec<ReadState>, StateFault>
    requires layout { layout.now ≡ arrangement_of code.now }
    requires lines { AreSavedLines lines.now }
    requires few { length lines.now + 1 < 2 ^ 32 }
    ensures ok { IfOk result (λ states.
        ReadsGrid code.now lines.now (map state_in states.items)) }
    ensures ready { IfOk result (λ states. AreReady code.now states.items) }
    ensures err { IfErr result (FaultAt (BreaksGrid code.now lines.now) lines.now) }
{
    let count = processor_count(code.tables(), layout);
    let mut states = Vec::new(alloc);
    let mut at = 0;
    for p in 0..count {
        let (state, behind) = read_state(alloc, code, layout, p, lines, at)?;
        keep(&mut states, state)?;
        at = behind;
    }
    if at < lines.len() {
        return Err(bad_state(at));
    }
    Ok(states)
}
