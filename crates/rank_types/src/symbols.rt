//! The global names of a program.
ghost use Rattle.std.specs.Prelude.{◌≡◌};
ghost use Rattle.rank_types.specs.Symbols.{kind_named};

use indexmap::IndexMap;
use std::marker::Model;

/// What a global name stands for.
#[derive(Clone, Copy, Debug, PartialEq, Eq)]
pub enum NameKind {
    /// A configuration variable.
    Config,
    /// A constant.
    Constant,
    /// A region.
    Region,
    /// A direction.
    Direction,
    /// A variable that is no array.
    Scalar,
    /// An array.
    Array,
    /// A procedure.
    Procedure,
}

/// The global names of a program with their kinds, in the order of the text.
#[derive(Drop)]
pub struct Symbols<'a> {
    pub(crate) entries: IndexMap<&'a [u8], NameKind>,
}

impl<'a> Model for Symbols<'a> {
    ghost use Rattle.std.specs.Prelude.{List, map};
    ghost use Rattle.rank_types.specs.Symbols.{Symbol, row_of};

    ghost Value = { List Symbol };

    ghost view = { λ symbols. map row_of symbols.entries.entries };
}

impl<'a> Symbols<'a> {
    /// What a name stands for, or nothing exactly where no global name is this one.
    pub fn find(&self, name: &[u8]) -> Option<NameKind>
        ensures { result ≡ kind_named self.now name.now }
    {
        match self.entries.get(name) {
            Some(kind) => Some(*kind),
            None => None,
        }
    }
}
