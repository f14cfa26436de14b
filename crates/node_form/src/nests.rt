//! How the members of a group open and close. Nothing is kept of what is open: it is found by
//! counting.
ghost use Rattle.std.specs.Prelude.{◌≡◌, ◌+◌, ◌<◌, ◌^◌, ◌↔◌, IsTrue, List, [], Some, slice_get};
ghost use Rattle.node_form.specs.Nest.{IsNest, back_over, is_closing, may_follow, opened};

use crate::members::Member;
use std::ops::ControlFlow;

/// A member that is open, and waits for the one that closes it.
#[derive(Clone, Copy, Debug)]
pub enum Opening {
    If,
    Else,
    While,
    Repeat,
}

/// Whether members open and close as they must. The time is at most quadratic in the number of
/// members.
pub(crate) fn is_nest(members: &[Member]) -> bool
    ensures { IsTrue result ↔ IsNest members.now }
{
    for (i, member) in members.iter().enumerate() {
        if is_closing(*member) && !may_follow(innermost(&members[..i]), *member) {
            return false;
        }
    }
    innermost(members).is_none()
}

/// Whether the member closes an opening, or goes on with one.
fn is_closing(member: Member) -> bool
    ensures { result ≡ is_closing member }
{
    match member {
        Member::Otherwise | Member::CloseIf | Member::CloseWhile | Member::Until { .. } => true,
        Member::Put { .. }
        | Member::Cell { .. }
        | Member::Acc { .. }
        | Member::OpenIf { .. }
        | Member::OpenWhile { .. }
        | Member::OpenRepeat { .. } => false,
    }
}

/// Whether the member may stand where this opening is the innermost.
fn may_follow(innermost: Option<Opening>, member: Member) -> bool
    ensures { result ≡ may_follow innermost member }
{
    match member {
        Member::Otherwise => match innermost {
            Some(Opening::If) => true,
            Some(Opening::Else | Opening::While | Opening::Repeat) | None => false,
        },
        Member::CloseIf => match innermost {
            Some(Opening::If | Opening::Else) => true,
            Some(Opening::While | Opening::Repeat) | None => false,
        },
        Member::CloseWhile => match innermost {
            Some(Opening::While) => true,
            Some(Opening::If | Opening::Else | Opening::Repeat) | None => false,
        },
        Member::Until { .. } => match innermost {
            Some(Opening::Repeat) => true,
            Some(Opening::If | Opening::Else | Opening::While) | None => false,
        },
        Member::Put { .. }
        | Member::Cell { .. }
        | Member::Acc { .. }
        | Member::OpenIf { .. }
        | Member::OpenWhile { .. }
        | Member::OpenRepeat { .. } => true,
    }
}

/// The innermost opening that members leave open, if there is one.
fn innermost(members: &[Member]) -> Option<Opening>
    ensures { (openings : List _) →
        opened [] members.now ≡ Some openings → result ≡ slice_get openings 0 }
{
    let mut depth: usize = 0;
    let mut rest = members.len();
    while rest > 0 {
        rest -= 1;
        match back_over(members[rest], depth) {
            ControlFlow::Continue(next) => depth = next,
            ControlFlow::Break(opening) => return Some(opening),
        }
    }
    None
}

/// Where the opening at a depth stands among those in front of the member, or that the member
/// opened it. Depths count from the innermost.
fn back_over(member: Member, depth: usize) -> ControlFlow<Opening, usize>
    requires { depth + 1 < 2 ^ 64 }
    ensures { result ≡ back_over member depth }
{
    let opening = match member {
        Member::Put { .. } | Member::Cell { .. } | Member::Acc { .. } => {
            return ControlFlow::Continue(depth);
        }
        Member::CloseIf | Member::CloseWhile | Member::Until { .. } => {
            return ControlFlow::Continue(depth + 1);
        }
        Member::Otherwise => {
            return if depth == 0 {
                ControlFlow::Break(Opening::Else)
            } else {
                ControlFlow::Continue(depth)
            };
        }
        Member::OpenIf { .. } => Opening::If,
        Member::OpenWhile { .. } => Opening::While,
        Member::OpenRepeat { .. } => Opening::Repeat,
    };
    if depth == 0 {
        ControlFlow::Break(opening)
    } else {
        ControlFlow::Continue(depth - 1)
    }
}
