//! Why a program isn't lowered.
ghost use Rattle.std.specs.Prelude.{◌≡◌};
ghost use Rattle.zpl_lower.specs.declared.faults.LowerFault.TheVariants.{NoMemory};

use std::alloc::AllocError;

/// Why a program isn't lowered.
#[derive(Clone, Copy, Debug, PartialEq, Eq)]
pub enum LowerFault {
    /// With every call expanded it has more than 20,000 statements.
    TooManyStatements,
    /// With every call expanded its expressions have more than 200,000 nodes.
    TooManyNodes,
    /// Memory was wanting.
    NoMemory,
}

impl From<AllocError> for LowerFault {
    ghost from_gives = { λ _ fault. fault ≡ NoMemory };

    fn from(_error: AllocError) -> LowerFault {
        LowerFault::NoMemory
    }
}
