//! Moves without a message: to another row, or to the end.
ghost use Rattle.std.specs.Prelude.{◌≡◌, ◌≤◌, ◌<◌, length};
ghost use Rattle.grid_meaning.specs.Action.{ended_as, goes_on};
ghost use Rattle.grid_meaning.specs.Turn.{registers_of};
ghost use Rattle.node_control.specs.Moving.{MovesBy};
ghost use Rattle.node_form.specs.Control.{Leaps, branched, checked};

use node_form::NodeProgram;
use node_local::Local;
use zpl_nums::{End, TrapKind};

/// Goes to the next row.
pub(crate) fn go_on(code: &NodeProgram, local: &mut Local)
    requires { local.old.local.at < length code.now.code }
    ensures { local.new ≡ record local.old { local = goes_on local.old.local } }
{
    let _count = code.tables().code.len();
    local.go_on();
}

/// Ends the processor with a trap at the line.
pub(crate) fn trap(local: &mut Local, kind: TrapKind, line: u32)
    ensures { local.new ≡ record local.old {
      local = ended_as local.old.local (End.Trap kind line);
    } }
{
    local.end(End::Trap(kind, line));
}

/// Goes to the row of this number.
pub(crate) fn jump(local: &mut Local, goal: u32)
    ensures { MovesBy (Leaps goal) local.old local.new }
{
    local.go_to(u64::from(goal));
}

/// Goes on where a condition stands, and else ends with a trap.
pub(crate) fn check(code: &NodeProgram, local: &mut Local, stands: bool, kind: TrapKind, line: u32)
    requires { local.old.local.at < length code.now.code }
    ensures { MovesBy (checked (registers_of local.old.local) stands kind line)
        local.old local.new }
{
    if stands {
        go_on(code, local);
    } else {
        trap(local, kind, line);
    }
}

/// Goes on where a test is true, and else to the goal.
pub(crate) fn branch(code: &NodeProgram, local: &mut Local, test: bool, goal: u32)
    requires { local.old.local.at < length code.now.code }
    ensures { MovesBy (branched (registers_of local.old.local) test goal) local.old local.new }
{
    if test {
        go_on(code, local);
    } else {
        local.go_to(u64::from(goal));
    }
}
