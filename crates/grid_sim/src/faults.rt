//! What cuts a run off.
ghost use Rattle.std.specs.Prelude.{◌≡◌};
ghost use Rattle.grid_sim.specs.declared.faults.SimFault.TheVariants.{SinkFailed, NoMemory};

use node_turn::StuckKind;
use std::alloc::AllocError;
use zpl_io::PutFailed;

/// Why a turn was not made, or a run was cut off.
#[derive(Clone, Copy, Debug, PartialEq, Eq)]
pub enum SimFault {
    /// All turns that a run may have were given.
    TurnLimit,
    /// A put failed.
    SinkFailed,
    /// This processor is stuck; or all rest, and this is the first that hasn't ended.
    Stuck(u32, StuckKind),
    /// Memory was wanting.
    NoMemory,
}

impl From<AllocError> for SimFault {
    ghost from_gives = { λ _ fault. fault ≡ NoMemory };

    fn from(_error: AllocError) -> SimFault {
        SimFault::NoMemory
    }
}

impl From<PutFailed> for SimFault {
    ghost from_gives = { λ _ fault. fault ≡ SinkFailed };

    fn from(_error: PutFailed) -> SimFault {
        SimFault::SinkFailed
    }
}
