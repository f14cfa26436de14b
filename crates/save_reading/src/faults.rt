//! Why lines of states are those of no grid.
ghost use Rattle.std.specs.Prelude.{◌≡◌, ◌+◌, ◌^◌, ◌<◌};

use std::alloc::AllocError;

/// Why lines of states are those of no grid. A line is counted from 1, among these lines.
#[derive(Clone, Copy, Debug, PartialEq, Eq, Drop)]
pub enum StateFault {
    /// This line is the first that breaks a rule of states; or it is the one behind the last, and a
    /// line is missing.
    BadState { line: u32 },
    NoMemory,
}

impl From<AllocError> for StateFault {
    ghost use Rattle.std.specs.Prelude.{◌≡◌};
    ghost use Rattle.save_reading.specs.declared.faults.StateFault.TheVariants.{NoMemory};

    ghost from_gives = { λ error fault. fault ≡ NoMemory };

    fn from(_error: AllocError) -> StateFault {
        StateFault::NoMemory
    }
}

/// A rule is broken at the line with this place, counted from 0.
pub fn bad_state(at: usize) -> StateFault
    requires { at + 1 < 2 ^ 32 }
    ensures { result ≡ StateFault.BadState (at + 1) }
{
    StateFault::BadState {
        line: at as u32 + 1,
    }
}
