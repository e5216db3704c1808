//! How the program ended.
ghost use Rattle.std.specs.Prelude.{◌≡◌};
ghost use Rattle.release_chain.specs.Status.{status_of_ending};

use rel_io::{Dup, NoMemory};
use release_report::{Fault, status_of};
use std::alloc::Global;

/// How the program ended: its status, and its fault where the status is not 0.
#[derive(PartialEq, Eq, Drop)]
pub struct Ended {
    /// The status of the process: 0 for success, 1 for a refused file or step and a file that is not there, 2 for refused
    /// arguments, 3 for a failed read or write, 4 where memory ran out.
    pub status: u8,
    /// What ended the run, and None exactly where the status is 0.
    pub fault: Option<Fault>,
}

impl Ended {
    /// The ending with this fault, or with none.
    pub(crate) fn with(fault: Option<Fault>) -> Ended
        ensures fault { result.fault ≡ fault }
        ensures status { result.status ≡ status_of_ending fault }
    {
        let status = match &fault {
            None => 0,
            Some(fault) => status_of(fault),
        };
        Ended { status, fault }
    }
}

impl Dup for Ended {
    fn copy(&self, alloc: Global) -> Result<Ended, NoMemory> {
        let fault = self.fault.copy(alloc)?;
        Ok(Ended {
            status: self.status,
            fault,
        })
    }
}
