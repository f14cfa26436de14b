//! What is known of rows that have been read.
ghost use Rattle.std.specs.Prelude.{◌≡◌};
ghost use Rattle.listing_rules.specs.Ranks.{any_bit, bit, both};

use node_form::{Rows, Tables};

/// Ranks, from 1 to 3.
#[derive(Clone, Copy, Debug, Drop)]
pub struct Ranks {
    pub one: bool,
    pub two: bool,
    pub three: bool,
}

/// What is known of an expression.
#[derive(Clone, Copy, Debug, Drop)]
pub struct ExprFacts {
    /// The ranks at which it fits.
    pub ranks: Ranks,
    /// It needs no index.
    pub scalar: bool,
}

/// The tables that have been read so far, and what is known of their rows.
#[derive(Drop)]
pub struct Known {
    pub tables: Tables,
    pub exprs: Rows<ExprFacts>,
    pub groups: Rows<Ranks>,
}

impl Ranks {
    /// Whether this rank, from 1 to 3, is among them.
    pub(crate) fn at(self, rank: u8) -> bool
        ensures { result ≡ bit rank self }
    {
        match rank {
            1 => self.one,
            2 => self.two,
            _ => self.three,
        }
    }

    /// Whether there is one.
    pub(crate) fn any(self) -> bool
        ensures { result ≡ any_bit self }
    {
        self.one || self.two || self.three
    }

    /// Those that are in both.
    pub(crate) fn and(self, other: Ranks) -> Ranks
        ensures { result ≡ both self other }
    {
        Ranks {
            one: self.one && other.one,
            two: self.two && other.two,
            three: self.three && other.three,
        }
    }
}
