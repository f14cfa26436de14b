//! The states of processors.
ghost use Rattle.std.specs.Prelude.{◌≡◌, ◌+◌, ◌^◌, ◌<◌, ◌≤◌, IfErr, IfOk, drop, length};
ghost use Rattle.grid_meaning.specs.Local.{processors};
ghost use Rattle.grid_meaning.specs.Stored.{arrangement_of};
ghost use Rattle.node_local.specs.Workplace.{IsReady};
ghost use Rattle.save_lines.specs.Line.{AreSavedLines};
ghost use Rattle.save_reading.specs.of_grid_save.Reads.{BreaksState, ReadsState};
ghost use Rattle.save_reading.specs.Fault.{FaultAt};
ghost use Rattle.state_reading.specs.Read.{state_in};

use crate::standings::read_standing;
use grid_layout::Layout;
use node_form::NodeProgram;
use node_local::Local;
use save_lines::SavedLine;
use save_reading::{Sent, StateFault, take_messages};
use std::alloc::Global;

/// The state of a processor, and the messages that it sent and that are on their way, by their
/// receivers in ascending order, the oldest first.
#[derive(Drop)]
pub struct ReadState {
    pub local: Local,
    pub sent: Vec<Sent>,
}

/// The state of processor p, from a line on, and the place behind it.
pub fn read_state(
    alloc: Global,
    code: &NodeProgram,
    layout: &Layout,
    p: u32,
    lines: &[SavedLine],
    from: usize,
) -> Result<(ReadState, usize), StateFault>
    requires layout { layout.now ≡ arrangement_of code.now }
    requires processor { p < processors code.now }
    requires lines { AreSavedLines lines.now }
    requires few { length lines.now + 1 < 2 ^ 32 }
    requires inside { from ≤ length lines.now }
    ensures ok { IfOk result (λ found. ReadsState code.now p (drop from lines.now)
        (state_in found.0) (drop found.1 lines.now)) }
    ensures ready { IfOk result (λ found. IsReady code.now p found.0.local) }
    ensures inside { IfOk result (λ found. found.1 ≤ length lines.now) }
    ensures err { IfErr result (FaultAt
        (BreaksState code.now p (drop from lines.now)) lines.now) }
{
    let (standing, behind) = read_standing(alloc, code, layout, p, lines, from)?;
    let local = Local::restore(alloc, code, layout, p, standing)?;
    let (sent, behind) = take_messages(alloc, code.tables(), layout, p, lines, behind)?;
    Ok((ReadState { local, sent }, behind))
}
