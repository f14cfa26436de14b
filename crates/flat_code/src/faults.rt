//! Why there is no code.
ghost use Rattle.std.specs.Prelude.{◌≡◌};
ghost use Rattle.flat_code.specs.declared.faults.FlatFault.TheVariants.{NoMemory};

use std::alloc::AllocError;

/// Why a flat program gets no node code.
#[derive(Clone, Copy, Debug, PartialEq, Eq)]
pub enum FlatFault {
    /// The processors of the grid would hold more than 16,777,216 words of the arrays.
    TooMuchStorage,
    /// Memory was wanting, or a row's number doesn't fit into 32 bits.
    NoMemory,
}

impl From<AllocError> for FlatFault {
    ghost from_gives = { λ _ fault. fault ≡ NoMemory };

    fn from(_error: AllocError) -> FlatFault {
        FlatFault::NoMemory
    }
}
