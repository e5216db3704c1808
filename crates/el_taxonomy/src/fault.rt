//! Why reasoning is refused.
ghost use Rattle.std.specs.Prelude.{◌≡◌};
ghost use Rattle.el_taxonomy.specs.declared.fault.ReasonFault.TheVariants as fault;

use rel_io::NoMemory;
use std::alloc::{AllocError, AllocFailed};

/// Why reasoning is refused.
#[derive(Clone, Copy, Debug, PartialEq, Eq)]
pub enum ReasonFault {
    /// Nothing can be in a declared class.
    Unsatisfiable {
        /// The place of its declaration.
        at: usize,
    },
    /// More facts are derived than the limit.
    TooManyFacts {
        /// The limit.
        limit: u64,
    },
    /// No memory was left.
    NoMemory,
}

impl From<NoMemory> for ReasonFault {
    ghost from_gives = { λ _ made. made ≡ fault.NoMemory };

    fn from(_: NoMemory) -> ReasonFault {
        ReasonFault::NoMemory
    }
}

impl From<AllocError> for ReasonFault {
    ghost from_gives = { λ _ made. made ≡ fault.NoMemory };

    fn from(_: AllocError) -> ReasonFault {
        ReasonFault::NoMemory
    }
}

impl<T: Drop> From<AllocFailed<T>> for ReasonFault {
    ghost from_gives = { λ _ made. made ≡ fault.NoMemory };

    fn from(_: AllocFailed<T>) -> ReasonFault {
        ReasonFault::NoMemory
    }
}
