//! Gates of two wires. Each says how many variables it adds at most; where memory is wanting it adds no more.

ghost use Rattle.std.specs.Prelude.{◌≡◌, ℕ, ◌+◌, ◌<◌, ◌^◌, ◌&&◌, ◌||◌, IfOk, length};
ghost use Rattle.wh_circuit.specs.Gates.{IsWire, Means};
ghost use Rattle.wh_circuit.specs.State.{Grows, gates_of};
ghost use Rattle.wh_sat.specs.Solving.{literal_true};

use crate::circuit::Circuit;
use std::alloc::AllocError;
use wh_circuit_gates::Wire;

impl Circuit {
    /// True where both wires are.
    pub fn both(&mut self, a: Wire, b: Wire) -> Result<Wire, AllocError>
        requires room { length (gates_of self.old) + 1 < 2 ^ 31 }
        requires own_a { IsWire (gates_of self.old) a }
        requires own_b { IsWire (gates_of self.old) b }
        ensures grows { Grows 1 self.old self.new }
        ensures means { IfOk result (λ made. Means (gates_of self.new) made (λ v. literal_true v a && literal_true v b)) }
    {
        self.and(&[a, b])
    }

    /// True where one of the wires is.
    pub fn either(&mut self, a: Wire, b: Wire) -> Result<Wire, AllocError>
        requires room { length (gates_of self.old) + 1 < 2 ^ 31 }
        requires own_a { IsWire (gates_of self.old) a }
        requires own_b { IsWire (gates_of self.old) b }
        ensures grows { Grows 1 self.old self.new }
        ensures means { IfOk result (λ made. Means (gates_of self.new) made (λ v. literal_true v a || literal_true v b)) }
    {
        self.or(&[a, b])
    }

    /// True where a and b are, or c and d.
    pub fn either_pair(&mut self, a: Wire, b: Wire, c: Wire, d: Wire) -> Result<Wire, AllocError>
        requires room { length (gates_of self.old) + 3 < 2 ^ 31 }
        requires own_a { IsWire (gates_of self.old) a }
        requires own_b { IsWire (gates_of self.old) b }
        requires own_c { IsWire (gates_of self.old) c }
        requires own_d { IsWire (gates_of self.old) d }
        ensures grows { Grows 3 self.old self.new }
        ensures means { IfOk result (λ made. Means (gates_of self.new) made
            (λ v. literal_true v a && literal_true v b || literal_true v c && literal_true v d)) }
    {
        let first = self.both(a, b)?;
        let second = self.both(c, d)?;
        self.either(first, second)
    }
}
