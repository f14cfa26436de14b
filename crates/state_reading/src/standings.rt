//! The states of processors, but for their messages.
ghost use Rattle.std.specs.Prelude.{◌≡◌, ◌+◌, ◌^◌, ◌<◌, ◌≤◌, IfErr, IfOk, drop, length, map};
ghost use Rattle.grid_meaning.specs.Local.{processors};
ghost use Rattle.grid_meaning.specs.State.{IsLocal};
ghost use Rattle.grid_meaning.specs.Stored.{arrangement_of};
ghost use Rattle.node_local.specs.Standing.{entry_of, standing_local};
ghost use Rattle.save_lines.specs.Line.{AreSavedLines};
ghost use Rattle.save_reading.specs.of_grid_save.Reads.{BreaksState};
ghost use Rattle.save_reading.specs.Fault.{FaultAt};
ghost use Rattle.state_reading.specs.Local.{ReadsKept, ReadsLocal};

use crate::arrays::look_at_arrays;
use crate::kept::{take_kept, told_count};
use grid_layout::Layout;
use node_form::NodeProgram;
use node_local::{Kept, KeptWords, Standing};
use row_progress::{Progress, begun, is_far, may_keep};
use save_lines::SavedLine;
use save_reading::{StateFault, bad_state, read_values};
use std::alloc::Global;

/// The words that a processor keeps, beside the values from a line on that allow it, and the place
/// behind them.
fn read_kept(
    alloc: Global,
    code: &NodeProgram,
    layout: &Layout,
    p: u32,
    lines: &[SavedLine],
    from: usize,
) -> Result<(Vec<Kept>, usize), StateFault>
    requires layout { layout.now ≡ arrangement_of code.now }
    requires processor { p < processors code.now }
    requires lines { AreSavedLines lines.now }
    requires few { length lines.now + 1 < 2 ^ 32 }
    requires inside { from ≤ length lines.now }
    ensures ok { IfOk result (λ found. ReadsKept code.now p (drop from lines.now)
        (map entry_of found.0.items) (drop found.1 lines.now)) }
    ensures inside { IfOk result (λ found. found.1 ≤ length lines.now) }
    ensures err { IfErr result (FaultAt
        (BreaksState code.now p (drop from lines.now)) lines.now) }
{
    let (values, behind) = read_values(alloc, code, layout, p, lines, from)?;
    let far = Progress {
        made: values.made,
        index: values.index,
        member: values.member,
    };
    let mut begun = begun(alloc, code, layout, p, values)?;
    let told = told_count(lines, behind) as u64;
    if !is_far(code, layout, p, &mut begun, &far, told) {
        return Err(bad_state(from));
    }
    let (kept, next) = take_kept(alloc, code, layout, p, &mut begun, &far, lines, behind)?;
    let keeps = may_keep(alloc, code, layout, p, &mut begun, &far, kept.as_slice())?;
    if !keeps {
        return Err(bad_state(next));
    }
    Ok((kept, next))
}

/// What a processor has, with the words that it keeps, from a line on, and the place behind it. Its
/// values are read once more, once they are known to be right.
pub(crate) fn read_standing(
    alloc: Global,
    code: &NodeProgram,
    layout: &Layout,
    p: u32,
    lines: &[SavedLine],
    from: usize,
) -> Result<(Standing, usize), StateFault>
    requires layout { layout.now ≡ arrangement_of code.now }
    requires processor { p < processors code.now }
    requires lines { AreSavedLines lines.now }
    requires few { length lines.now + 1 < 2 ^ 32 }
    requires inside { from ≤ length lines.now }
    ensures ok { IfOk result (λ found. ReadsLocal code.now p (drop from lines.now)
        (standing_local found.0) (drop found.1 lines.now)) }
    ensures state { IfOk result (λ found. IsLocal code.now p (standing_local found.0)) }
    ensures inside { IfOk result (λ found. found.1 ≤ length lines.now) }
    ensures err { IfErr result (FaultAt
        (BreaksState code.now p (drop from lines.now)) lines.now) }
{
    look_at_arrays(code.tables());
    let (kept, behind) = read_kept(alloc, code, layout, p, lines, from)?;
    let (mut standing, _) = read_values(alloc, code, layout, p, lines, from)?;
    standing.kept = KeptWords::of(kept);
    Ok((standing, behind))
}
