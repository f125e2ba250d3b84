//! A shelf: named files that can be read from any offset. `FileShelf` has the files of the operating system, and
//! `MemoryShelf` has files in memory for tests.

ghost use Rattle.std.specs.Prelude.{◌≡◌, ◌≤◌, ℕ, List, Option};
ghost use Rattle.wh_io.specs.Outside.{ReadsAt, HasCause};

/// A read or a write that failed. It does not say why.
#[derive(Clone, Copy)]
pub struct Failed;

/// Named files. `held` is what the file of a name holds, where the shelf tells it; it is `None` both where there is no
/// such file and where nothing is told, since no contract needs to tell the two apart. `faults` is how many reads under
/// a name failed. One count may stand for all names.
pub trait Shelf {
    ghost held: { Self → List ℕ → Option (List ℕ) };

    ghost faults: { Self → List ℕ → ℕ };

    /// Reads from byte `at` of the file of that name. `Ok(n)` put the next `n` bytes at the front
    /// of `into`; it is 0 only at the end of the file, or where `into` is empty. A missing file
    /// is a fault.
    fn read_at(&mut self, name: &str, at: u64, into: &mut [u8]) -> Result<usize, Failed>
        ensures bytes { ReadsAt (held self.old name.now) at into.new result }
        ensures kept { (other : List ℕ) → held self.new other ≡ held self.old other }
        ensures later { (other : List ℕ) → faults self.old other ≤ faults self.new other }
        ensures cause { HasCause (faults self.old name.now) (faults self.new name.now) result };
}
