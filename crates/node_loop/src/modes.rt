//! Members that are run or skipped.
ghost use Rattle.std.specs.Prelude.{◌≡◌, ◌<◌, ◌≤◌, ◌+◌, ◌^◌};
ghost use Rattle.node_form.specs.Group.{skipped};
ghost use Rattle.node_loop.specs.Step.{depth_in, mode_of};

use crate::brackets::{Bracket, bracket_of};
use node_form::Member;

/// Whether members are run, or skipped up to the one that closes an opening.
#[derive(Clone, Copy)]
pub(crate) enum Mode {
    Runs,
    /// So many more are open within it. The skipping ends at its `Otherwise` too, where it has to.
    Skips { depth: usize, to_else: bool },
}

/// The mode behind a skipped member.
pub(crate) fn skipped(depth: usize, to_else: bool, member: &Member) -> Mode
    requires { depth + 1 < 2 ^ 64 }
    ensures mode { skipped depth to_else member.now ≡ mode_of result }
    ensures deep { depth_in result ≤ depth + 1 }
{
    match bracket_of(member) {
        Bracket::Plain => Mode::Skips { depth, to_else },
        Bracket::Opens => Mode::Skips {
            depth: depth + 1,
            to_else,
        },
        Bracket::Otherwise => {
            if depth == 0 && to_else {
                Mode::Runs
            } else {
                Mode::Skips { depth, to_else }
            }
        }
        Bracket::Closes => {
            if depth == 0 {
                Mode::Runs
            } else {
                Mode::Skips {
                    depth: depth - 1,
                    to_else,
                }
            }
        }
    }
}
