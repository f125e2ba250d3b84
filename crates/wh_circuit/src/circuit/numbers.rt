//! Comparing numbers whose bits are wires, the lowest first.

ghost use Rattle.std.specs.Prelude.{◌≡◌, ℕ, ◌+◌, ◌*◌, ◌<◌, ◌^◌, ◌&&◌, ◌||◌, Bool, IfOk, OnErr, OnOk, length, nat_lt, not};
ghost use Rattle.wh_circuit.specs.Gates.{AreWires, IsWire, Means};
ghost use Rattle.wh_circuit.specs.State.{Grows, Unchanged, gates_of};
ghost use Rattle.wh_circuit.specs.Values.{number_of};
ghost use Rattle.wh_sat.specs.Solving.{literal_true};

use crate::circuit::Circuit;
use std::alloc::AllocError;
use wh_circuit_gates::Wire;

impl Circuit {
    /// True exactly where the first number is at least the second; they are equally wide. Of width 0 it is true. At
    /// most four variables join for each bit, and one more.
    pub fn at_least(&mut self, a: &[Wire], b: &[Wire]) -> Result<Wire, AllocError>
        requires room { length (gates_of self.old) + (4 * length a.now + 1) < 2 ^ 31 }
        requires width { length a.now ≡ length b.now }
        requires own_a { AreWires (gates_of self.old) a.now }
        requires own_b { AreWires (gates_of self.old) b.now }
        ensures grows { OnOk result (Grows (4 * length a.now + 1) self.old self.new) }
        ensures means { IfOk result (λ made. Means (gates_of self.new) made (λ v. not (nat_lt (number_of v a.now) (number_of v b.now)))) }
        ensures err { OnErr result (Unchanged self.old self.new) }
    {
        let mark = self.mark();
        match self.compared(a, b) {
            Ok(made) => Ok(made),
            Err(error) => {
                self.restore(mark);
                Err(error)
            }
        }
    }

    /// Compares two numbers as `at_least` does. Where memory is wanting, gates may be left that `at_least` takes back.
    fn compared(&mut self, a: &[Wire], b: &[Wire]) -> Result<Wire, AllocError>
        requires room { length (gates_of self.old) + (4 * length a.now + 1) < 2 ^ 31 }
        requires width { length a.now ≡ length b.now }
        requires own_a { AreWires (gates_of self.old) a.now }
        requires own_b { AreWires (gates_of self.old) b.now }
        ensures grows { Grows (4 * length a.now + 1) self.old self.new }
        ensures means { IfOk result (λ made. Means (gates_of self.new) made (λ v. not (nat_lt (number_of v a.now) (number_of v b.now)))) }
    {
        let mut least = self.truth()?;
        for i in 0..a.len() {
            least = self.compared_bit(a[i], b[i], least)?;
        }
        Ok(least)
    }

    /// One bit more is compared: where the bits are alike, the lower bits decide.
    fn compared_bit(&mut self, a: Wire, b: Wire, lower: Wire) -> Result<Wire, AllocError>
        requires room { length (gates_of self.old) + 4 < 2 ^ 31 }
        requires own_a { IsWire (gates_of self.old) a }
        requires own_b { IsWire (gates_of self.old) b }
        requires own_lower { IsWire (gates_of self.old) lower }
        ensures grows { Grows 4 self.old self.new }
        ensures means { IfOk result (λ made. Means (gates_of self.new) made (λ v. literal_true v a && not (literal_true v b)
            || (literal_true v a || not (literal_true v b)) && literal_true v lower)) }
    {
        let below = self.not(b);
        let alike = self.either(a, below)?;
        self.either_pair(a, below, alike, lower)
    }
}
