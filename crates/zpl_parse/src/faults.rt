//! Why a text has no tree, or none that isn't too deep.
ghost use Rattle.std.specs.Prelude.{◌≡◌};
ghost use Rattle.zpl_parse.specs.declared.faults.ParseFault.TheVariants.{NoMemory};
ghost use Rattle.zpl_parse.specs.Faults.{parse_name, parse_offset};

use std::alloc::{AllocError, AllocFailed};

/// Why no tree is given.
#[derive(Clone, Copy, Debug, PartialEq, Eq)]
pub enum ParseFault {
    /// The token at `at` is the first with which, behind those before it, no text of the grammar
    /// begins.
    Syntax {
        /// The offset of that token.
        at: u32,
    },
    /// Some front of the tokens begins texts of the grammar, and each of their trees is deeper
    /// than 200.
    TooDeep,
    /// There was no memory for the tree.
    NoMemory,
}

impl ParseFault {
    /// How the fault is called, as its variant is.
    pub fn name(self) -> &'static str
        ensures { result.now ≡ parse_name self }
    {
        match self {
            ParseFault::Syntax { .. } => "Syntax",
            ParseFault::TooDeep => "TooDeep",
            ParseFault::NoMemory => "NoMemory",
        }
    }

    /// The offset of its place, counted in bytes from 0. What is too deep and want of memory have
    /// none, and answer 0.
    pub fn at(self) -> u32
        ensures { result ≡ parse_offset self }
    {
        match self {
            ParseFault::Syntax { at } => at,
            ParseFault::TooDeep | ParseFault::NoMemory => 0,
        }
    }
}

impl<T: Drop> From<AllocFailed<T>> for ParseFault {
    ghost from_gives = { λ _ e. e ≡ NoMemory };

    fn from(_failed: AllocFailed<T>) -> ParseFault {
        ParseFault::NoMemory
    }
}

impl From<AllocError> for ParseFault {
    ghost from_gives = { λ _ e. e ≡ NoMemory };

    fn from(_failed: AllocError) -> ParseFault {
        ParseFault::NoMemory
    }
}
