//! What cuts a timed run off.
ghost use Rattle.std.specs.Prelude.{◌≡◌};
ghost use Rattle.grid_time.specs.declared.faults.TimeFault.TheVariants.{Cut};

use grid_sim::SimFault;

/// Why a timed run was cut off.
#[derive(Clone, Copy, Debug, PartialEq, Eq)]
pub enum TimeFault {
    /// The run makes more moves than a table takes.
    TooManyMoves,
    /// It was cut off as a run is that isn't timed.
    Cut(SimFault),
}

impl From<SimFault> for TimeFault {
    ghost from_gives = { λ fault given. given ≡ Cut fault };

    fn from(fault: SimFault) -> TimeFault {
        TimeFault::Cut(fault)
    }
}
