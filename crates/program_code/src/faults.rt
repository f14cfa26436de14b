//! Why there is no code.
ghost use Rattle.std.specs.Prelude.{◌≡◌};
ghost use Rattle.program_code.specs.Faults.{of_flat, of_lowering};

use flat_code::FlatFault;
use zpl_lower::LowerFault;

/// Why a program isn't compiled. Want of memory is the last variant.
#[derive(Clone, Copy, Debug, PartialEq, Eq)]
pub enum CompileFault {
    /// The program has more than 20,000 statements, each call counted with what it calls.
    TooManyStatements,
    /// It has more than 200,000 nodes of expressions, counted so.
    TooManyNodes,
    /// The processors of the grid would hold more than 16,777,216 words of their arrays.
    TooMuchStorage,
    /// Memory was wanting.
    NoMemory,
}

impl From<LowerFault> for CompileFault {
    ghost from_gives = { λ fault made. made ≡ of_lowering fault };

    fn from(fault: LowerFault) -> CompileFault {
        match fault {
            LowerFault::TooManyStatements => CompileFault::TooManyStatements,
            LowerFault::TooManyNodes => CompileFault::TooManyNodes,
            LowerFault::NoMemory => CompileFault::NoMemory,
        }
    }
}

impl From<FlatFault> for CompileFault {
    ghost from_gives = { λ fault made. made ≡ of_flat fault };

    fn from(fault: FlatFault) -> CompileFault {
        match fault {
            FlatFault::TooMuchStorage => CompileFault::TooMuchStorage,
            FlatFault::NoMemory => CompileFault::NoMemory,
        }
    }
}
