//! The parts of a listing.
ghost use Rattle.std.specs.Prelude.{◌≡◌, ◌+◌, ◌<◌, [], ◌∷◌, true, false, MatchOption, drop, length};
ghost use Rattle.listing_rules.specs.Reads.{begins};
ghost use Rattle.listing_rules.specs.Rules.{belongs};

use listing_rows::listing_lines::{Keyword, Line};

/// A part of a listing, or of a group or an exchange.
#[derive(Clone, Copy, Debug)]
pub enum Part {
    Arrays,
    Texts,
    Exprs,
    Groups,
    Members,
    Exchanges,
    Items,
    Instructions,
}

/// Whether a line with this keyword belongs to the part.
fn belongs(part: Part, keyword: Keyword) -> bool
    ensures { result ≡ belongs part keyword }
{
    match part {
        Part::Arrays => matches!(keyword, Keyword::Array),
        Part::Texts => matches!(keyword, Keyword::Text),
        Part::Exprs => matches!(keyword, Keyword::Expr),
        Part::Groups => matches!(keyword, Keyword::Group),
        Part::Members => is_member(keyword),
        Part::Exchanges => matches!(keyword, Keyword::Exchange),
        Part::Items => matches!(keyword, Keyword::Item),
        Part::Instructions => true,
    }
}

fn is_member(keyword: Keyword) -> bool
    ensures { result ≡ belongs Part.Members keyword }
{
    matches!(
        keyword,
        Keyword::Put
            | Keyword::Cell
            | Keyword::Acc
            | Keyword::If
            | Keyword::Else
            | Keyword::Fi
            | Keyword::While
            | Keyword::Od
            | Keyword::Repeat
            | Keyword::Until
    )
}

/// The line at this place, if it belongs to the part.
pub(crate) fn next_of(part: Part, lines: &[Line], at: usize) -> Option<&Line>
    ensures { MatchOption result
        (begins (belongs part) (drop at lines.now) ≡ false)
        (λ line. (belongs part line.now.keyword ≡ true)
        × (drop at lines.now ≡ line.now ∷ drop (at + 1) lines.now)
        × (at < length lines.now)) }
{
    match lines.get(at) {
        Some(line) if belongs(part, line.keyword) => Some(line),
        _ => None,
    }
}

/// The line at this place, if there is one.
pub(crate) fn line_at(lines: &[Line], at: usize) -> Option<&Line>
    ensures { MatchOption result
        (drop at lines.now ≡ [])
        (λ line. (drop at lines.now ≡ line.now ∷ drop (at + 1) lines.now)
        × (at < length lines.now)) }
{
    lines.get(at)
}
