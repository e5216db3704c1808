//! Why there is no table.
ghost use Rattle.std.specs.Prelude.{◌≡◌};
ghost use Rattle.el_numbers.specs.declared.fault.SaturationFault.TheVariants as fault;

use std::alloc::{AllocError, AllocFailed};

/// Why a saturation gave no table.
#[derive(Clone, Copy, Debug, PartialEq, Eq)]
pub enum SaturationFault {
    /// More facts are derived than this limit.
    TooManyFacts(u64),
    /// No memory was left.
    NoMemory,
}

impl From<AllocError> for SaturationFault {
    ghost from_gives = { λ _ made. made ≡ fault.NoMemory };

    fn from(_: AllocError) -> SaturationFault {
        SaturationFault::NoMemory
    }
}

impl<T: Drop> From<AllocFailed<T>> for SaturationFault {
    ghost from_gives = { λ _ made. made ≡ fault.NoMemory };

    fn from(failed: AllocFailed<T>) -> SaturationFault {
        drop(failed);
        SaturationFault::NoMemory
    }
}
