//! The status with which the program ends.
ghost use Rattle.std.specs.Prelude.{◌≡◌};
ghost use Rattle.release_report.specs.Cause.{status_of};

use crate::Fault;

/// The status of a fault: 1 for a file or a step that is refused and for a file that is not there, 2 for refused arguments,
/// 3 where reading or writing failed, 4 where memory ran out.
pub fn status_of(fault: &Fault) -> u8
    ensures { result ≡ status_of fault.now }
{
    match fault {
        Fault::BadWord { .. } => 2,
        Fault::MissingInput { .. }
        | Fault::MissingImport { .. }
        | Fault::TooManyFiles { .. }
        | Fault::TooManyBytes { .. }
        | Fault::NotUtf8 { .. }
        | Fault::LineTooLong { .. }
        | Fault::Syntax { .. }
        | Fault::NoId { .. }
        | Fault::ShortGroup { .. }
        | Fault::CatalogLine { .. }
        | Fault::SeedLine { .. }
        | Fault::EmptySeed { .. }
        | Fault::TooManyFacts { .. }
        | Fault::Unsatisfiable { .. }
        | Fault::TwoValues { .. } => 1,
        Fault::ReadFault { .. } | Fault::WriteFault { .. } | Fault::SinkFault => 3,
        Fault::NoMemory => 4,
    }
}
