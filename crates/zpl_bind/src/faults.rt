//! Why settings don't bind a program.
ghost use Rattle.std.specs.Prelude.{◌≡◌};
ghost use Rattle.zpl_bind.specs.declared.faults.BindFault.TheVariants.{NoMemory};
ghost use Rattle.zpl_bind.specs.Fault.{fault_name};

use std::alloc::{AllocError, AllocFailed};

/// Why settings don't bind a program.
#[derive(Clone, Copy, Debug, PartialEq, Eq)]
pub enum BindFault {
    /// A setting's name is no config's.
    UnknownConfig,
    /// A setting's value is none of its config's type.
    ConfigType,
    /// A name is set a second time.
    TwiceSet,
    /// A divisor is 0 in a declaration or a vector.
    BadConstant,
    /// A declared region, a storage or the storage of a copy passes the limit of regions.
    RegionLimit,
    /// A component of a vector is out of range.
    DirectionLimit,
    /// Memory ran out.
    NoMemory,
}

impl BindFault {
    /// The fault's name.
    pub fn name(self) -> &'static str
        ensures { result.now ≡ fault_name self }
    {
        match self {
            BindFault::UnknownConfig => "UnknownConfig",
            BindFault::ConfigType => "ConfigType",
            BindFault::TwiceSet => "TwiceSet",
            BindFault::BadConstant => "BadConstant",
            BindFault::RegionLimit => "RegionLimit",
            BindFault::DirectionLimit => "DirectionLimit",
            BindFault::NoMemory => "NoMemory",
        }
    }
}

impl From<AllocError> for BindFault {
    ghost from_gives = { λ _ fault. fault ≡ NoMemory };

    fn from(_error: AllocError) -> BindFault {
        BindFault::NoMemory
    }
}

impl<T: Drop> From<AllocFailed<T>> for BindFault {
    ghost from_gives = { λ _ fault. fault ≡ NoMemory };

    fn from(_failed: AllocFailed<T>) -> BindFault {
        BindFault::NoMemory
    }
}
