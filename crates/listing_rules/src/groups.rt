//! Members of groups, as they are read.
ghost use Rattle.std.specs.Prelude.{◌≡◌, ◌++◌, [], ◌∷◌, ℕ, ◌↔◌, Some, None, IfOk, IsTrue};
ghost use Rattle.std.specs.Prelude.{MatchBool, map, reverse};
ghost use Rattle.node_form.specs.declared.members.Member.{Member as Row};
ghost use Rattle.node_form.specs.declared.tables.Tables.{Tables as Code};
ghost use Rattle.node_form.specs.Fits.{FitsGroup};
ghost use Rattle.node_form.specs.Nest.{open_behind};
ghost use Rattle.listing_rules.specs.Facts.{AreMembers, Knows, TakesMember, openings_of};
ghost use Rattle.listing_rules.specs.Rules.{IsMemberLine};

use crate::facts::{Known, Ranks};
use crate::found::member_in;
use crate::same::same_line;
use listing_rows::listing_lines::Line;
use listing_rows::member_line;
use node_form::Member;
use std::alloc::{AllocError, Global};

/// A member that is open, and waits for the one that closes it.
#[derive(Clone, Copy, Debug, Drop)]
pub enum Open {
    If,
    Else,
    While,
    Repeat,
}

/// The members of a group that have been read, with the ranks at which they fit and what they leave
/// open, of which the last is the innermost.
#[derive(Drop)]
pub struct Group {
    pub members: Vec<Member>,
    pub ranks: Ranks,
    pub kept: Vec<Open>,
}

/// Whether the member may stand where these are open. It opens and closes members.
fn reopen(kept: &mut Vec<Open>, member: &Member) -> Result<bool, AllocError>
    ensures { IfOk result (λ stands. MatchBool stands
        (open_behind (openings_of kept.old.items) member.now ≡ Some (openings_of kept.new.items))
        (open_behind (openings_of kept.old.items) member.now ≡ None)) }
{
    match *member {
        Member::Put { .. } | Member::Cell { .. } | Member::Acc { .. } => {}
        Member::OpenIf { .. } => kept.push(Open::If)?,
        Member::OpenWhile { .. } => kept.push(Open::While)?,
        Member::OpenRepeat { .. } => kept.push(Open::Repeat)?,
        Member::Otherwise => match kept.pop() {
            Some(Open::If) => kept.push(Open::Else)?,
            _ => return Ok(false),
        },
        Member::CloseIf => return Ok(matches!(kept.pop(), Some(Open::If | Open::Else))),
        Member::CloseWhile => return Ok(matches!(kept.pop(), Some(Open::While))),
        Member::Until { .. } => return Ok(matches!(kept.pop(), Some(Open::Repeat))),
    }
    Ok(true)
}

impl Group {
    /// A group without members.
    pub(crate) fn new(alloc: Global) -> Group
        ensures members { result.members.items ≡ [] }
        ensures are { (tables : Code) → AreMembers tables [] result.ranks result.kept.items }
    {
        Group {
            members: Vec::new(alloc),
            ranks: Ranks {
                one: true,
                two: true,
                three: true,
            },
            kept: Vec::new(alloc),
        }
    }

    /// Whether the line is that of a member that may stand here. If so, the member is added.
    pub(crate) fn take(
        &mut self,
        alloc: Global,
        known: &Known,
        line: &Line,
    ) -> Result<bool, AllocError>
        requires knows { Knows known.now }
        requires are { AreMembers known.now.tables self.old.members.items self.old.ranks
            self.old.kept.items }
        ensures { IfOk result (λ taken. MatchBool taken
            (TakesMember known.now.tables self.old.members.items line.now self.new.members.items
            self.new.ranks self.new.kept.items)
            ((row : Row) →
            IsMemberLine known.now.tables self.old.members.items line.now row → ⊥)) }
    {
        let Some(member) = member_in(line.keyword, line.fields.as_slice()) else {
            return Ok(false);
        };
        let written = member_line(alloc, &member)?;
        if !same_line(line, &written) {
            return Ok(false);
        }
        let ranks = self.ranks.and(known.member_ranks(&member));
        if !ranks.any() {
            return Ok(false);
        }
        let stands = reopen(&mut self.kept, &member)?;
        if !stands {
            return Ok(false);
        }
        self.ranks = ranks;
        self.members.push(member)?;
        Ok(true)
    }

    /// Whether the members make a group: none is open.
    pub(crate) fn is_whole(&self) -> bool
        ensures { (tables : Code) →
            AreMembers tables self.now.members.items self.now.ranks self.now.kept.items →
            IsTrue result ↔ FitsGroup tables self.now.members.items }
    {
        self.kept.as_slice().is_empty()
    }
}
