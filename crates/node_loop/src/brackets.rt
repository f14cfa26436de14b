//! How members stand in the nest of a group.
ghost use Rattle.std.specs.Prelude.{◌≡◌, ◌<◌, ◌+◌, ◌^◌, length};
ghost use Rattle.node_form.specs.Group.{innermost_of, outermost_of};
ghost use Rattle.node_loop.specs.Bracket.{back_over, bracket_of};

use node_form::Member;

/// How a member stands among those that open and close.
#[derive(Clone, Copy)]
pub(crate) enum Bracket {
    /// It neither opens nor closes.
    Plain,
    /// It opens members.
    Opens,
    /// It ends the members of an `OpenIf`, and opens those that are run in their place.
    Otherwise,
    /// It closes members.
    Closes,
}

/// How the member stands.
pub(crate) fn bracket_of(member: &Member) -> Bracket
    ensures { result ≡ bracket_of member.now }
{
    match *member {
        Member::Put { .. } | Member::Cell { .. } | Member::Acc { .. } => Bracket::Plain,
        Member::OpenIf { .. } | Member::OpenWhile { .. } | Member::OpenRepeat { .. } => {
            Bracket::Opens
        }
        Member::Otherwise => Bracket::Otherwise,
        Member::CloseIf | Member::CloseWhile | Member::Until { .. } => Bracket::Closes,
    }
}

/// On the way back from a member to the one that encloses it, with so many openings to be passed:
/// how many there are in front of this member; `None` where it is the one.
fn back_over(member: &Member, depth: usize) -> Option<usize>
    requires { depth + 1 < 2 ^ 64 }
    ensures { result ≡ back_over (bracket_of member.now) depth }
{
    match bracket_of(member) {
        Bracket::Plain | Bracket::Otherwise => Some(depth),
        Bracket::Closes => Some(depth + 1),
        Bracket::Opens => depth.checked_sub(1),
    }
}

/// The innermost member that encloses the one with this number, or that number.
pub(crate) fn innermost(members: &[Member], number: usize) -> u64
    requires { number < length members.now }
    ensures { result ≡ innermost_of members.now number }
{
    let mut depth = 0;
    let mut rest = number;
    while rest > 0 {
        rest -= 1;
        match back_over(&members[rest], depth) {
            Some(next) => depth = next,
            None => return rest as u64,
        }
    }
    number as u64
}

/// The outermost member that encloses the one with this number, or that number.
pub(crate) fn outermost(members: &[Member], number: usize) -> u64
    requires { number < length members.now }
    ensures { result ≡ outermost_of members.now number }
{
    let mut outer = number;
    let mut depth = 0;
    let mut rest = number;
    while rest > 0 {
        rest -= 1;
        match back_over(&members[rest], depth) {
            Some(next) => depth = next,
            None => outer = rest,
        }
    }
    outer as u64
}
