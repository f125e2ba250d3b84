//! Lines that begin with the name of a symbol, and whether their names are those of some symbols in order.

ghost use Rattle.std.specs.Prelude.{◌≡◌, ◌↔◌, IsTrue, Some, map, slice_get};

use wh_cert::{Interp, NamedFilter};
use wh_text::Name;

/// A line of a node that begins with the name of a symbol.
pub trait Named {
    ghost use Rattle.std.specs.Prelude.{ℕ, List};

    ghost name_of: { Self → List ℕ };

    /// The name of the symbol.
    fn name(&self) -> &Name
        ensures { result.now ≡ name_of self.now };
}

impl Named for Interp {
    ghost name_of = { λ line. line.name };

    fn name(&self) -> &Name {
        &self.name
    }
}

impl Named for NamedFilter {
    ghost name_of = { λ line. line.name };

    fn name(&self) -> &Name {
        &self.name
    }
}

/// Whether the lines have these names, in order.
pub fn name_all<L: Named>(names: &[Name], lines: &[L]) -> bool
    ensures { IsTrue result ↔ (map L.name_of lines.now ≡ names.now) }
{
    if lines.len() != names.len() {
        return false;
    }
    for i in 0..lines.len() {
        if !same_name(lines[i].name(), &names[i]) {
            return false;
        }
    }
    true
}

/// Whether the lines have the names of the symbols with these numbers, in order.
pub fn name_these<L: Named>(names: &[Name], numbers: &[u32], lines: &[L]) -> bool
    ensures { IsTrue result ↔ (map (λ n. slice_get names.now n) numbers.now ≡ map (λ line. Some (L.name_of line)) lines.now) }
{
    if lines.len() != numbers.len() {
        return false;
    }
    for i in 0..lines.len() {
        if !is_name_of(names, numbers[i], lines[i].name()) {
            return false;
        }
    }
    true
}

// Whether the symbol with the number has the name.
fn is_name_of(names: &[Name], number: u32, name: &Name) -> bool
    ensures { IsTrue result ↔ (slice_get names.now number ≡ Some name.now) }
{
    (number as usize) < names.len() && same_name(&names[number as usize], name)
}

// Whether two names are equal.
fn same_name(a: &Name, b: &Name) -> bool
    ensures { IsTrue result ↔ (a.now ≡ b.now) }
{
    a.bytes() == b.bytes()
}
