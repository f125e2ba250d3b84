//! Gates join a circuit. Constants are folded: the wire that is always true is left out of a gate, and its negation
//! decides it. So a gate that is made has two wires or more, but for that constant, which is made where it is first
//! asked for.

ghost use Rattle.std.specs.Prelude.{◌≡◌, ℕ, ◌+◌, ◌<◌, ◌^◌, ◌++◌, [], ◌∷◌, Bool, true, false, IfOk, MatchOption, OnErr, OnOk, Some, length};
ghost use Rattle.wh_circuit.specs.Gates.{Agrees, AreWires, IsWire, Means};
ghost use Rattle.wh_circuit.specs.State.{Grows, Unchanged, gates_of};
ghost use Rattle.wh_circuit.specs.Values.{all_true};
ghost use Rattle.wh_sat.specs.Solving.{clause_true, literal_true};

use crate::circuit::{Circuit, Gate};
use std::alloc::AllocError;
use wh_circuit_gates::{Wire, clauses_of_gate, negations_of};
use wh_sat_trail::Clause;

impl Circuit {
    /// True exactly where all of the wires are; of none it is true. At most one variable joins.
    pub fn and(&mut self, of: &[Wire]) -> Result<Wire, AllocError>
        requires room { length (gates_of self.old) + 1 < 2 ^ 31 }
        requires own { AreWires (gates_of self.old) of.now }
        ensures grows { OnOk result (Grows 1 self.old self.new) }
        ensures means { IfOk result (λ a. Means (gates_of self.new) a (λ v. all_true v of.now)) }
        ensures err { OnErr result (Unchanged self.old self.new) }
    {
        match self.folded(of)? {
            None => self.falsity(),
            Some(kept) => self.all_of(kept),
        }
    }

    /// True exactly where some of the wires is; of none it is false. At most one variable joins.
    pub fn or(&mut self, of: &[Wire]) -> Result<Wire, AllocError>
        requires room { length (gates_of self.old) + 1 < 2 ^ 31 }
        requires own { AreWires (gates_of self.old) of.now }
        ensures grows { OnOk result (Grows 1 self.old self.new) }
        ensures means { IfOk result (λ a. Means (gates_of self.new) a (λ v. clause_true v of.now)) }
        ensures err { OnErr result (Unchanged self.old self.new) }
    {
        let negations = negations_of(self.alloc, of)?;
        let none = self.and(&negations)?;
        Ok(self.not(none))
    }

    /// The value of a wire that is a constant.
    fn constant(&self, wire: Wire) -> Option<bool>
        ensures { (b : Bool) → result ≡ Some b → (v : ℕ → Bool) → Agrees (gates_of self.now) v → literal_true v wire ≡ b }
    {
        if self.truth == Some(wire.variable) {
            Some(wire.positive)
        } else {
            None
        }
    }

    /// The wires that are not known to be true, or None where one is known to be false.
    fn folded(&self, of: &[Wire]) -> Result<Option<Clause>, AllocError>
        requires own { AreWires (gates_of self.now) of.now }
        ensures { IfOk result (λ found. MatchOption found
            ((v : ℕ → Bool) → Agrees (gates_of self.now) v → all_true v of.now ≡ false)
            (λ kept. AreWires (gates_of self.now) kept
            × ((v : ℕ → Bool) → Agrees (gates_of self.now) v → all_true v kept ≡ all_true v of.now))) }
    {
        let mut kept = Clause::new(self.alloc);
        for wire in of {
            match self.constant(*wire) {
                None => kept.push(*wire)?,
                Some(true) => {}
                Some(false) => return Ok(None),
            }
        }
        Ok(Some(kept))
    }

    /// True exactly where all of the wires are; of one this is the wire itself.
    fn all_of(&mut self, kept: Clause) -> Result<Wire, AllocError>
        requires room { length (gates_of self.old) + 1 < 2 ^ 31 }
        requires own { AreWires (gates_of self.old) kept }
        ensures grows { OnOk result (Grows 1 self.old self.new) }
        ensures means { IfOk result (λ a. Means (gates_of self.new) a (λ v. all_true v kept)) }
        ensures err { OnErr result (Unchanged self.old self.new) }
    {
        match kept.as_slice() {
            [] => self.truth(),
            [one] => Ok(*one),
            _ => self.gate(kept),
        }
    }

    /// The wire that is always true.
    pub fn truth(&mut self) -> Result<Wire, AllocError>
        requires room { length (gates_of self.old) + 1 < 2 ^ 31 }
        ensures grows { OnOk result (Grows 1 self.old self.new) }
        ensures means { IfOk result (λ a. Means (gates_of self.new) a (λ v. true)) }
        ensures err { OnErr result (Unchanged self.old self.new) }
    {
        if let Some(variable) = self.truth {
            return Ok(Wire {
                variable,
                positive: true,
            });
        }
        let none = Clause::new(self.alloc);
        let wire = self.gate(none)?;
        self.truth = Some(wire.variable);
        Ok(wire)
    }

    /// The wire that is always false.
    pub fn falsity(&mut self) -> Result<Wire, AllocError>
        requires room { length (gates_of self.old) + 1 < 2 ^ 31 }
        ensures grows { OnOk result (Grows 1 self.old self.new) }
        ensures means { IfOk result (λ a. Means (gates_of self.new) a (λ v. false)) }
        ensures err { OnErr result (Unchanged self.old self.new) }
    {
        let truth = self.truth()?;
        Ok(self.not(truth))
    }

    /// A gate joins: the next variable, with its clauses.
    fn gate(&mut self, of: Clause) -> Result<Wire, AllocError>
        requires room { length (gates_of self.old) + 1 < 2 ^ 31 }
        requires own { AreWires (gates_of self.old) of }
        ensures grows { OnOk result (Grows 1 self.old self.new) }
        ensures wire { IfOk result (λ a. a.positive ≡ true) }
        ensures means { IfOk result (λ a. Means (gates_of self.new) a (λ v. all_true v of)) }
        ensures err { OnErr result (Unchanged self.old self.new) }
    {
        let number = self.formula.variables;
        let clauses = clauses_of_gate(self.alloc, number, of.as_slice())?;
        self.gates.reserve(1)?;
        self.formula.clauses.append(clauses)?;
        let _ = self.gates.push(Gate {
            is_input: false,
            of,
        });
        self.formula.variables = number + 1;
        Ok(Wire {
            variable: number,
            positive: true,
        })
    }
}
