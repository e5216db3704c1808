//! The outside that takes a report: bytes go in, and a write may fail.
ghost use Rattle.std.specs.Prelude.{◌≤◌};
ghost use Rattle.rel_io.specs.Sink.{SinkState, Writes};

/// A write to a sink failed, perhaps behind the first of its bytes.
#[derive(Clone, Copy, Debug, PartialEq, Eq)]
pub struct SinkFailed;

/// What bytes are written to, as standard output is. A sink may tell what was written to it or not;
/// what is said of content is said of a sink that tells it.
pub trait Sink {
    /// The bytes written so far, and the count of failed writes.
    ghost state: { Self → SinkState };

    /// Writes all these bytes behind those before, or fails behind a part of them.
    fn write_all(&mut self, bytes: &[u8]) -> Result<(), SinkFailed>
        ensures writes { Writes bytes.now (state self.old) result (state self.new) }
        ensures counts { (state self.old).faults ≤ (state self.new).faults };
}
