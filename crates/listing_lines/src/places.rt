//! Which line may stand behind which.
ghost use Rattle.std.specs.Prelude.{◌≡◌, Bool, true, false, Some, None, IfOk, MatchBool, OnOk};
ghost use Rattle.std.specs.Prelude.{reverse};
ghost use Rattle.listing_lines.specs.Place.{is_end, open_behind, part_behind, role_of};

use crate::keywords::Keyword;
use std::alloc::{AllocError, Global};

/// What a line is for.
#[derive(Clone, Copy, Debug, PartialEq, Eq)]
pub enum Role {
    Version,
    Grid,
    Scalars,
    Slots,
    Cells,
    Array,
    Text,
    Expr,
    Group,
    Member,
    Exchange,
    Item,
    Code,
    Instruction,
}

/// Where a line stands: before one of the lines that begin each listing, or behind a line of one of
/// the other parts.
#[derive(Clone, Copy, Debug, PartialEq, Eq)]
pub enum Part {
    Version,
    Grid,
    Scalars,
    Slots,
    Cells,
    Arrays,
    Texts,
    Exprs,
    Groups,
    Exchanges,
    Code,
}

/// A member that is open, and waits for the one that closes it.
#[derive(Clone, Copy, Debug, PartialEq, Eq, Drop)]
pub enum Opening {
    If,
    Else,
    While,
    Repeat,
}

pub(crate) fn role_of(keyword: Keyword) -> Role
    ensures { result ≡ role_of keyword }
{
    match keyword {
        Keyword::Version => Role::Version,
        Keyword::Grid => Role::Grid,
        Keyword::Scalars => Role::Scalars,
        Keyword::Slots => Role::Slots,
        Keyword::Cells => Role::Cells,
        Keyword::Array => Role::Array,
        Keyword::Text => Role::Text,
        Keyword::Expr => Role::Expr,
        Keyword::Group => Role::Group,
        Keyword::Put
        | Keyword::Cell
        | Keyword::Acc
        | Keyword::If
        | Keyword::Else
        | Keyword::Fi
        | Keyword::While
        | Keyword::Od
        | Keyword::Repeat
        | Keyword::Until => Role::Member,
        Keyword::Exchange => Role::Exchange,
        Keyword::Item => Role::Item,
        Keyword::Code => Role::Code,
        _ => Role::Instruction,
    }
}

/// What comes behind a line of this role, if it may stand here.
pub(crate) fn part_behind(part: Part, role: Role) -> Option<Part>
    ensures { result ≡ part_behind part role }
{
    match (part, role) {
        (Part::Version, Role::Version) => Some(Part::Grid),
        (Part::Grid, Role::Grid) => Some(Part::Scalars),
        (Part::Scalars, Role::Scalars) => Some(Part::Slots),
        (Part::Slots, Role::Slots) => Some(Part::Cells),
        (Part::Cells, Role::Cells) => Some(Part::Arrays),
        (Part::Arrays, Role::Array) => Some(Part::Arrays),
        (Part::Arrays | Part::Texts, Role::Text) => Some(Part::Texts),
        (Part::Arrays | Part::Texts | Part::Exprs, Role::Expr) => Some(Part::Exprs),
        (Part::Arrays | Part::Texts | Part::Exprs | Part::Groups, Role::Group)
        | (Part::Groups, Role::Member) => Some(Part::Groups),
        (Part::Arrays | Part::Texts | Part::Exprs | Part::Groups | Part::Exchanges, Role::Exchange)
        | (Part::Exchanges, Role::Item) => Some(Part::Exchanges),
        (Part::Arrays | Part::Texts | Part::Exprs | Part::Groups | Part::Exchanges, Role::Code)
        | (Part::Code, Role::Instruction) => Some(Part::Code),
        _ => None,
    }
}

/// Whether nothing more need come.
pub(crate) fn is_end(part: Part) -> bool
    ensures { result ≡ is_end part }
{
    part == Part::Code
}

/// Whether a line may stand where these members are open, of which the last is the innermost. It
/// opens and closes members.
pub(crate) fn reopen(openings: &mut Vec<Opening>, keyword: Keyword) -> Result<bool, AllocError>
    ensures { IfOk result (λ stands. MatchBool stands
        (open_behind (reverse openings.old.items) keyword ≡ Some (reverse openings.new.items))
        (open_behind (reverse openings.old.items) keyword ≡ None)) }
{
    match keyword {
        Keyword::If => openings.push(Opening::If)?,
        Keyword::While => openings.push(Opening::While)?,
        Keyword::Repeat => openings.push(Opening::Repeat)?,
        Keyword::Else => match openings.pop() {
            Some(Opening::If) => openings.push(Opening::Else)?,
            _ => return Ok(false),
        },
        Keyword::Fi => {
            return Ok(matches!(openings.pop(), Some(Opening::If | Opening::Else)));
        }
        Keyword::Od => return Ok(matches!(openings.pop(), Some(Opening::While))),
        Keyword::Until => return Ok(matches!(openings.pop(), Some(Opening::Repeat))),
        Keyword::Group | Keyword::Exchange | Keyword::Code => return Ok(openings.is_empty()),
        _ => {}
    }
    Ok(true)
}
