//! A writer of std, as standard output is one, as a sink. It tells what std's contracts tell of
//! the writer: of standard output nothing, so there it is trusted.

ghost use Rattle.std.specs.Prelude.{◌≡◌};

use crate::shelf::Failed;
use crate::sink::Sink;
use std::io::Write;

/// A writer of std. Each error of std is a fault, want of memory too, and so is a write that takes
/// none of some bytes.
#[derive(Drop)]
pub struct StdSink<W: Write + Drop> {
    /// The writer.
    pub out: W,
    /// How many writes failed, up to the last number of 64 bits.
    pub faults: u64,
}

impl<W: Write + Drop> StdSink<W> {
    /// A sink over this writer, with no fault yet.
    pub fn new(out: W) -> Self
        ensures { result ≡ record { out = out; faults = 0 } }
    {
        StdSink { out, faults: 0 }
    }
}

impl<W: Write + Drop> Sink for StdSink<W> {
    ghost written = { λ sink. W.contents sink.out };

    ghost faults = { λ sink. sink.faults };

    fn put(&mut self, bytes: &[u8]) -> Result<usize, Failed> {
        match self.out.write(bytes) {
            Ok(count) if count > 0 || bytes.is_empty() => Ok(count),
            _ => {
                self.faults = self.faults.saturating_add(1);
                Err(Failed)
            }
        }
    }
}
