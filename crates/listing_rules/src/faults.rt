//! Why bytes are no listing.
ghost use Rattle.std.specs.Prelude.{◌≡◌, ◌+◌, ◌^◌, ◌<◌};

use std::alloc::AllocError;

/// Why bytes are no listing. A line is counted from 1.
#[derive(Clone, Copy, Debug, PartialEq, Eq, Drop)]
pub enum ListFault {
    /// This line has none of the forms in its place; or it is the one behind the last, and a part
    /// is missing.
    BadLine { line: u32 },
    /// All lines have their forms, and this is the first that breaks a rule of tables.
    BadTable { line: u32 },
    NoMemory,
}

impl From<AllocError> for ListFault {
    ghost use Rattle.std.specs.Prelude.{◌≡◌};
    ghost use Rattle.listing_rules.specs.declared.faults.ListFault.TheVariants.{NoMemory};

    ghost from_gives = { λ error fault. fault ≡ NoMemory };

    fn from(_error: AllocError) -> ListFault {
        ListFault::NoMemory
    }
}

/// A rule is broken at the line with this place, counted from 0.
pub(crate) fn bad_table(at: usize) -> ListFault
    requires { at + 1 < 2 ^ 32 }
    ensures { result ≡ ListFault.BadTable (at + 1) }
{
    ListFault::BadTable {
        line: at as u32 + 1,
    }
}
