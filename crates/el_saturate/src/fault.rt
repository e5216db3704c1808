//! Why there is no table.
ghost use Rattle.std.specs.Prelude.{◌≡◌};
ghost use Rattle.el_saturate.specs.declared.fault.SatFault.TheVariants as fault;

use rel_io::NoMemory;
use std::alloc::{AllocError, AllocFailed};

/// Why a saturation gave no table.
#[derive(Clone, Copy, Debug, PartialEq, Eq)]
pub enum SatFault {
    /// More facts are derived than the limit.
    TooManyFacts {
        /// The limit.
        limit: u64,
    },
    /// No memory was left.
    NoMemory,
}

impl From<NoMemory> for SatFault {
    ghost from_gives = { λ _ made. made ≡ fault.NoMemory };

    fn from(_: NoMemory) -> SatFault {
        SatFault::NoMemory
    }
}
