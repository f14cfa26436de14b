//! Lines.
ghost use Rattle.std.specs.Prelude.{◌≡◌, ◌≢◌, MatchOption};
ghost use Rattle.save_lines.specs.declared.lines.Kind.{Kind as Word};
ghost use Rattle.save_lines.specs.Line.{kind_of, kind_text};

use node_form::Row;
use zpl_region::Dim;

/// Whether a processor has ended, and how.
#[derive(Clone, Copy, Debug, PartialEq, Eq)]
pub enum EndWord {
    /// `-`: it has not.
    Going,
    /// `done`.
    Done,
    /// `trap:1:5`: the number of a kind of trap, and a source line.
    Trap(i128, i128),
}

/// A dimension of the box of an array.
#[derive(Clone, Copy, Debug, PartialEq, Eq)]
pub enum BoxDim {
    /// `1..2`.
    Range(i64, i64),
    /// `*`.
    Star,
}

/// Where a processor stands.
#[derive(Clone, Copy, Debug)]
pub struct ProcRow {
    pub processor: i128,
    /// The number of the next instruction.
    pub at: i128,
    /// How many turns were made in it.
    pub made: i128,
    /// How many indices of a loop are done.
    pub index: i128,
    /// The member of a loop with which the next turn begins.
    pub member: i128,
    /// The least member that met a zero divisor, or -1.
    pub flag: i128,
    pub end: EndWord,
}

/// A line that tells a part of the state of a processor.
#[derive(Debug, Drop)]
pub enum SavedLine {
    /// Where it stands.
    Proc(ProcRow),
    /// All its scalars.
    Scalars(Row<i64>),
    /// The region in a slot.
    Slot(Row<Dim>),
    /// All its cells.
    Cells(Row<i64>),
    /// The box of an array, and the values there in row-major order.
    Store(Row<BoxDim>, Row<i64>),
    /// The words that it keeps of a processor's message.
    Kept(i128, Row<i64>),
    /// A message on its way to a processor, with its tag and its words.
    Msg(i128, i128, Row<i64>),
}

/// Which line it is.
#[derive(Clone, Copy, Debug, PartialEq, Eq)]
pub enum Kind {
    /// `proc`.
    Proc,
    /// `scalars`.
    Scalars,
    /// `slot`.
    Slot,
    /// `cells`.
    Cells,
    /// `store`.
    Store,
    /// `kept`.
    Kept,
    /// `msg`.
    Msg,
}

impl Kind {
    /// The first word of such a line.
    pub(crate) fn text(self) -> &'static [u8]
        ensures { result.now ≡ kind_text self }
    {
        match self {
            Kind::Proc => b"proc",
            Kind::Scalars => b"scalars",
            Kind::Slot => b"slot",
            Kind::Cells => b"cells",
            Kind::Store => b"store",
            Kind::Kept => b"kept",
            Kind::Msg => b"msg",
        }
    }
}

impl SavedLine {
    /// Which line this is.
    pub fn kind(&self) -> Kind
        ensures { result ≡ kind_of self.now }
    {
        match self {
            SavedLine::Proc(_) => Kind::Proc,
            SavedLine::Scalars(_) => Kind::Scalars,
            SavedLine::Slot(_) => Kind::Slot,
            SavedLine::Cells(_) => Kind::Cells,
            SavedLine::Store(..) => Kind::Store,
            SavedLine::Kept(..) => Kind::Kept,
            SavedLine::Msg(..) => Kind::Msg,
        }
    }
}

/// The line with this first word.
pub(crate) fn kind_named(word: &[u8]) -> Option<Kind>
    ensures { MatchOption result
        ((kind : Word) → word.now ≢ kind_text kind)
        (λ kind. word.now ≡ kind_text kind) }
{
    match word {
        b"proc" => Some(Kind::Proc),
        b"scalars" => Some(Kind::Scalars),
        b"slot" => Some(Kind::Slot),
        b"cells" => Some(Kind::Cells),
        b"store" => Some(Kind::Store),
        b"kept" => Some(Kind::Kept),
        b"msg" => Some(Kind::Msg),
        _ => None,
    }
}
