//! A circuit that could not grow to the end goes back to where it stood.

ghost use Rattle.std.specs.Prelude.{◌≡◌, ℕ, length};
ghost use Rattle.wh_circuit.specs.Marks.{GrewFrom, IsMark};
ghost use Rattle.wh_circuit.specs.State.{Grows, Unchanged};
ghost use Rattle.wh_circuit.specs.declared.circuit.Circuit.{Circuit};

use crate::circuit::Circuit;
use crate::circuit::mark::Mark;

impl Circuit {
    /// Where the circuit stands.
    pub fn mark(&self) -> Mark
        ensures { IsMark self.now result }
    {
        Mark {
            variables: self.formula.variables,
            clauses: self.formula.clauses.as_slice().len(),
            truth: self.truth,
        }
    }

    /// Back to the mark.
    pub fn restore(&mut self, mark: Mark)
        requires { GrewFrom mark self.old }
        ensures { (before : Circuit) (n : ℕ) → IsMark before mark → Grows n before self.old → Unchanged before self.new }
    {
        self.formula.clauses.truncate(mark.clauses);
        self.gates.truncate(mark.variables as usize);
        self.formula.variables = mark.variables;
        self.truth = mark.truth;
    }
}
