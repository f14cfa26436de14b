//! Why code isn't checked.
use std::alloc::AllocError;

/// Why code isn't checked.
#[derive(Clone, Copy, Debug)]
pub enum CheckFault {
    /// The demand of this instruction isn't met, and no instruction before it has one that isn't
    /// met, those aside in front of which other exchanges are open on other paths.
    Unsound { at: u32 },
    /// The instructions, scalars, slots and members are more than 16,384 together.
    TooLarge,
    NoMemory,
}

impl From<AllocError> for CheckFault {
    ghost use Rattle.std.specs.Prelude.{◌≡◌};
    ghost use Rattle.node_check.specs.declared.faults.CheckFault.TheVariants.{NoMemory};

    ghost from_gives = { λ error fault. fault ≡ NoMemory };

    fn from(_: AllocError) -> CheckFault {
        CheckFault::NoMemory
    }
}
