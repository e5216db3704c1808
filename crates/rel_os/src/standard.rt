//! Standard output and standard error.
ghost use Rattle.std.specs.Prelude.{◌≡◌, None};

use rel_io::{Sink, SinkFailed};
use std::io::{Stderr, Stdout, Write};
use std::marker::Model;

/// A standard stream of the process. It does not tell what was written to it.
#[derive(Drop)]
pub struct StdSink<W> {
    stream: W,
    faults: u64,
}

impl<W> Model for StdSink<W> {
    ghost use Rattle.std.specs.Prelude.{None};
    ghost use Rattle.rel_io.specs.Sink.{SinkState};

    ghost Value = { SinkState };

    ghost view = { λ sink. record { written = None; faults = sink.faults } };
}

impl StdSink<Stdout> {
    /// Standard output, with nothing counted.
    pub fn output(rt: &HostRuntime) -> StdSink<Stdout>
        ensures { result ≡ record { written = None; faults = 0 } }
    {
        StdSink {
            stream: rt.stdout(),
            faults: 0,
        }
    }
}

impl StdSink<Stderr> {
    /// Standard error, with nothing counted.
    pub fn error(rt: &HostRuntime) -> StdSink<Stderr>
        ensures { result ≡ record { written = None; faults = 0 } }
    {
        StdSink {
            stream: rt.stderr(),
            faults: 0,
        }
    }
}

impl<W: Write> Sink for StdSink<W> {
    ghost state = { λ sink. sink };

    fn write_all(&mut self, bytes: &[u8]) -> Result<(), SinkFailed> {
        match self.stream.write_all(bytes) {
            Ok(()) => Ok(()),
            Err(_) => {
                self.faults = self.faults.saturating_add(1);
                Err(SinkFailed)
            }
        }
    }
}
