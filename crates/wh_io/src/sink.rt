//! A sink: a place that bytes are written to, in order. `StdSink` writes to a writer of std, and `MemorySink` keeps the
//! bytes in memory for tests.

ghost use Rattle.std.specs.Prelude.{ℕ, List, Option};
ghost use Rattle.wh_io.specs.Outside.{Puts, HasCause};

use crate::shelf::Failed;

/// A place to write to. `written` is what was written so far, where the sink tells it, and
/// `faults` is how many writes failed.
pub trait Sink {
    ghost written: { Self → Option (List ℕ) };

    ghost faults: { Self → ℕ };

    /// Appends the first bytes of `bytes`, as many as are taken in one call. `Ok(n)` says that `n` bytes were appended,
    /// which is 0 only where `bytes` is empty. `Failed` says that nothing was appended.
    fn put(&mut self, bytes: &[u8]) -> Result<usize, Failed>
        ensures bytes { Puts (written self.old) (written self.new) bytes.now result }
        ensures cause { HasCause (faults self.old) (faults self.new) result };
}
