//! Whether fields are those that their line wants.
ghost use Rattle.std.specs.Prelude.{◌≡◌};
ghost use Rattle.std.specs.Option.{option_map};
ghost use Rattle.listing_lines.specs.Form.{
  allows_name,
  allows_numbers,
  fits_slots,
  has_form,
  is_array,
  is_kind,
  is_operator,
  is_optional,
  may_end,
  wanted_behind,
};
ghost use Rattle.listing_lines.specs.FormTable.{form_of, hidden_form};

use crate::fields::{Field, Mark};
use crate::keywords::Keyword;
use crate::lines::Line;
use crate::names::Name;

/// What a field is.
#[derive(Clone, Copy, Debug, PartialEq, Eq)]
pub enum Kind {
    /// The version of the format.
    Version,
    /// A number.
    Number,
    /// The number of an expression or of an array, or `-` for none.
    Mask,
    /// A vector.
    Vector,
    /// An operator of a reduction.
    Fold,
    /// A dimension of a stored array.
    Stored,
    /// A dimension of a temporary.
    Hidden,
    /// A dimension of a region.
    Bounds,
    /// How a dimension is made.
    Part,
    /// A word of an expression.
    Word,
    /// For which operator regions have to conform.
    Same,
    /// How values are shown.
    Shown,
    /// The kind of a trap, from 1 to 4.
    Trap,
    /// The bytes of a text.
    Bytes,
}

/// How many fields of a kind are wanted.
#[derive(Clone, Copy, Debug, PartialEq, Eq)]
pub enum Slot {
    One(Kind),
    /// One or none.
    Maybe(Kind),
    /// Any number, none among them.
    Many(Kind),
}

/// The table of forms: what fields stand behind each keyword. The dimensions of an array are those
/// of a stored one.
fn form_of(keyword: Keyword) -> &'static [Slot]
    ensures { result.now ≡ form_of keyword }
{
    match keyword {
        Keyword::Version => &[Slot::One(Kind::Version)],
        Keyword::Grid => &[
            Slot::One(Kind::Number),
            Slot::Maybe(Kind::Number),
            Slot::Maybe(Kind::Number),
        ],
        Keyword::Scalars
        | Keyword::Cells
        | Keyword::Until
        | Keyword::Clear
        | Keyword::Start
        | Keyword::Finish
        | Keyword::Vote
        | Keyword::TreeVote
        | Keyword::Print
        | Keyword::Number
        | Keyword::Truth
        | Keyword::Jump => &[Slot::One(Kind::Number)],
        Keyword::Slots => &[Slot::Many(Kind::Number)],
        Keyword::Array => &[Slot::One(Kind::Stored), Slot::Many(Kind::Stored)],
        Keyword::Text => &[Slot::One(Kind::Bytes)],
        Keyword::Expr => &[Slot::One(Kind::Word), Slot::Many(Kind::Word)],
        Keyword::Group
        | Keyword::Exchange
        | Keyword::Code
        | Keyword::Else
        | Keyword::Fi
        | Keyword::Od
        | Keyword::End => &[],
        Keyword::Item | Keyword::Wrap | Keyword::Reflect => &[
            Slot::One(Kind::Number),
            Slot::One(Kind::Number),
            Slot::One(Kind::Vector),
        ],
        Keyword::Put | Keyword::Cell => &[
            Slot::One(Kind::Number),
            Slot::One(Kind::Number),
            Slot::One(Kind::Mask),
            Slot::One(Kind::Number),
        ],
        Keyword::Acc => &[
            Slot::One(Kind::Number),
            Slot::One(Kind::Fold),
            Slot::One(Kind::Number),
            Slot::One(Kind::Mask),
            Slot::One(Kind::Number),
        ],
        Keyword::If | Keyword::While => &[
            Slot::One(Kind::Number),
            Slot::One(Kind::Mask),
            Slot::One(Kind::Number),
        ],
        Keyword::Repeat => &[Slot::One(Kind::Mask), Slot::One(Kind::Number)],
        Keyword::Set | Keyword::Unless => &[
            Slot::One(Kind::Number),
            Slot::One(Kind::Number),
            Slot::One(Kind::Number),
        ],
        Keyword::Fix => &[
            Slot::One(Kind::Number),
            Slot::One(Kind::Bounds),
            Slot::Many(Kind::Bounds),
        ],
        Keyword::Dims => &[
            Slot::One(Kind::Number),
            Slot::One(Kind::Part),
            Slot::Many(Kind::Part),
            Slot::One(Kind::Number),
        ],
        Keyword::Of | Keyword::In | Keyword::At | Keyword::By | Keyword::Need => &[
            Slot::One(Kind::Number),
            Slot::One(Kind::Number),
            Slot::One(Kind::Vector),
            Slot::One(Kind::Number),
        ],
        Keyword::Same => &[
            Slot::One(Kind::Number),
            Slot::One(Kind::Number),
            Slot::One(Kind::Same),
            Slot::One(Kind::Number),
        ],
        Keyword::Fits => &[
            Slot::One(Kind::Number),
            Slot::One(Kind::Vector),
            Slot::One(Kind::Number),
        ],
        Keyword::Room | Keyword::Loop => &[Slot::One(Kind::Number), Slot::One(Kind::Number)],
        Keyword::Flood => &[
            Slot::One(Kind::Number),
            Slot::One(Kind::Number),
            Slot::One(Kind::Number),
            Slot::One(Kind::Number),
        ],
        Keyword::Part => &[
            Slot::One(Kind::Number),
            Slot::One(Kind::Number),
            Slot::One(Kind::Fold),
            Slot::One(Kind::Number),
            Slot::One(Kind::Number),
        ],
        Keyword::Scan => &[
            Slot::One(Kind::Number),
            Slot::One(Kind::Number),
            Slot::One(Kind::Fold),
            Slot::One(Kind::Number),
            Slot::One(Kind::Number),
            Slot::One(Kind::Mask),
        ],
        Keyword::Fold | Keyword::TreeFold => &[Slot::One(Kind::Number), Slot::One(Kind::Fold)],
        Keyword::Gather => &[
            Slot::One(Kind::Shown),
            Slot::One(Kind::Number),
            Slot::One(Kind::Number),
        ],
        Keyword::Trap => &[Slot::One(Kind::Trap), Slot::One(Kind::Number)],
        Keyword::Remap => &[
            Slot::One(Kind::Number),
            Slot::One(Kind::Number),
            Slot::One(Kind::Number),
            Slot::One(Kind::Number),
            Slot::Many(Kind::Number),
        ],
    }
}

/// The fields of a temporary's line.
fn hidden_form() -> &'static [Slot]
    ensures { result.now ≡ hidden_form }
{
    &[Slot::One(Kind::Hidden), Slot::Many(Kind::Hidden)]
}

fn allows_name(kind: Kind, name: Name) -> bool
    ensures { result ≡ allows_name kind name }
{
    match kind {
        Kind::Mask => matches!(name, Name::Minus),
        Kind::Fold => matches!(
            name,
            Name::Sum | Name::Prod | Name::Max | Name::Min | Name::All | Name::Any
        ),
        Kind::Stored | Kind::Bounds | Kind::Part => matches!(name, Name::Star),
        Kind::Hidden => matches!(name, Name::Minus | Name::MinusStar),
        Kind::Word => is_operator(name),
        Kind::Same => matches!(name, Name::Part | Name::Flood),
        Kind::Shown => matches!(name, Name::Number | Name::Truth),
        Kind::Version | Kind::Number | Kind::Vector | Kind::Trap | Kind::Bytes => false,
    }
}

fn is_operator(name: Name) -> bool
    ensures { result ≡ is_operator name }
{
    match name {
        Name::MinusStar
        | Name::Sum
        | Name::Prod
        | Name::All
        | Name::Any
        | Name::Part
        | Name::Flood
        | Name::Number
        | Name::Truth => false,
        _ => true,
    }
}

fn allows_numbers(kind: Kind, mark: Mark, numbers: &[i64]) -> bool
    ensures { result ≡ allows_numbers kind mark numbers.now }
{
    match kind {
        Kind::Version => matches!(mark, Mark::Plain) && matches!(numbers, [1]),
        Kind::Number | Kind::Mask => matches!(mark, Mark::Plain) && matches!(numbers, [_]),
        Kind::Vector => matches!(mark, Mark::Plain),
        Kind::Stored => matches!(mark, Mark::Range),
        Kind::Bounds => matches!(mark, Mark::Bounds),
        Kind::Part => matches!(mark, Mark::Span | Mark::Copied),
        Kind::Word => matches!(
            mark,
            Mark::Constant | Mark::Scalar | Mark::Here | Mark::Shifted | Mark::Cell | Mark::Coord
        ),
        Kind::Trap => matches!(mark, Mark::Plain) && matches!(numbers, [1 | 2 | 3 | 4]),
        Kind::Fold | Kind::Hidden | Kind::Same | Kind::Shown | Kind::Bytes => false,
    }
}

fn is_kind(kind: Kind, field: &Field) -> bool
    ensures { result ≡ is_kind kind field.now }
{
    match field {
        Field::Name(name) => allows_name(kind, *name),
        Field::Numbers(mark, numbers) => allows_numbers(kind, *mark, numbers.as_slice()),
        Field::Bytes(_) => matches!(kind, Kind::Bytes),
    }
}

/// What is still wanted behind a field, if the field is wanted.
fn wanted_behind<'a>(slots: &'a [Slot], field: &Field) -> Option<&'a [Slot]>
    ensures { option_map (λ rest. rest.now) result ≡ wanted_behind slots.now field.now }
{
    let mut rest = slots;
    while let Some((slot, others)) = rest.split_first() {
        match *slot {
            Slot::One(kind) => return is_kind(kind, field).then_some(others),
            Slot::Maybe(kind) if is_kind(kind, field) => return Some(others),
            Slot::Many(kind) if is_kind(kind, field) => return Some(rest),
            Slot::Maybe(_) | Slot::Many(_) => rest = others,
        }
    }
    None
}

/// Whether nothing more need come.
fn may_end(slots: &[Slot]) -> bool
    ensures { result ≡ may_end slots.now }
{
    slots.iter().all(is_optional)
}

fn is_optional(slot: &Slot) -> bool
    ensures { result ≡ is_optional slot.now }
{
    match slot {
        Slot::One(_) => false,
        Slot::Maybe(_) | Slot::Many(_) => true,
    }
}

/// Whether fields are those that are wanted: the first of them decides which are wanted behind it.
fn fits_slots(fields: &[Field], slots: &[Slot]) -> bool
    ensures { result ≡ fits_slots fields.now slots.now }
{
    let mut rest = slots;
    for field in fields {
        match wanted_behind(rest, field) {
            Some(slots) => rest = slots,
            None => return false,
        }
    }
    may_end(rest)
}

/// Whether the line's fields are those that its keyword wants.
pub(crate) fn has_form(line: &Line) -> bool
    ensures { result ≡ has_form line.now }
{
    let fields = line.fields.as_slice();
    fits_slots(fields, form_of(line.keyword))
        || (line.keyword == Keyword::Array && fits_slots(fields, hidden_form()))
}
