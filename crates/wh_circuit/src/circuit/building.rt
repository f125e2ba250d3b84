//! Building a circuit: inputs, wires that are required to be true, and the formula that a solver takes.

ghost use Rattle.std.specs.Prelude.{◌≡◌, ◌↔◌, ℕ, ◌+◌, ◌<◌, ◌^◌, ◌++◌, [], ◌∷◌, Bool, true, false, IfOk, OnErr, OnOk, get_or, length, not};
ghost use Rattle.wh_circuit.specs.Gates.{Agrees, IsWire, Ordered};
ghost use Rattle.wh_circuit.specs.Laws.{HasModel, MakesTrue};
ghost use Rattle.wh_circuit.specs.State.{Unchanged, formula_of, gates_of, required_of};
ghost use Rattle.wh_circuit.specs.Values.{all_true};
ghost use Rattle.wh_sat.specs.Solving.{Solves, literal_true};
ghost use Rattle.wh_sat_trail.specs.Assignment.{negated};
ghost use Rattle.wh_sat_trail.specs.Propagation.{Within};

use crate::circuit::{Circuit, Gate};
use std::alloc::{AllocError, Global};
use wh_circuit_gates::Wire;
use wh_sat_trail::{Clause, Clauses, Formula};

impl Circuit {
    /// No input and no gate, and nothing is required.
    pub fn new(alloc: Global) -> Circuit
        ensures { (gates_of result ≡ []) × (required_of result ≡ []) }
    {
        let clauses = Clauses::new(alloc);
        Circuit {
            alloc,
            formula: Formula {
                variables: 0,
                clauses,
            },
            gates: Vec::new(alloc),
            required: Vec::new(alloc),
            truth: None,
        }
    }

    /// A new input: the next variable.
    pub fn input(&mut self) -> Result<Wire, AllocError>
        requires room { length (gates_of self.old) + 1 < 2 ^ 31 }
        ensures gates { OnOk result (gates_of self.new ≡ gates_of self.old ++ record { is_input = true; of = [] } ∷ []) }
        ensures required { required_of self.new ≡ required_of self.old }
        ensures wire { IfOk result (λ a. a ≡ record { variable = length (gates_of self.old); positive = true }) }
        ensures err { OnErr result (Unchanged self.old self.new) }
    {
        let number = self.formula.variables;
        let of = Clause::new(self.alloc);
        self.gates.push(Gate { is_input: true, of })?;
        self.formula.variables = number + 1;
        Ok(Wire {
            variable: number,
            positive: true,
        })
    }

    /// The wire that is true exactly where the other is false. No variable joins.
    pub fn not(&self, a: Wire) -> Wire
        ensures same { result ≡ negated a }
        ensures means { (v : ℕ → Bool) → literal_true v result ≡ not (literal_true v a) }
    {
        Wire {
            variable: a.variable,
            positive: !a.positive,
        }
    }

    /// The wire has to be true. No variable joins.
    pub fn require(&mut self, a: Wire) -> Result<(), AllocError>
        requires own { IsWire (gates_of self.old) a }
        ensures gates { gates_of self.new ≡ gates_of self.old }
        ensures required { OnOk result (required_of self.new ≡ required_of self.old ++ a ∷ []) }
        ensures err { OnErr result (Unchanged self.old self.new) }
    {
        let mut clause = Clause::new(self.alloc);
        clause.push(a)?;
        self.required.reserve(1)?;
        self.formula.clauses.push(clause)?;
        let _ = self.required.push(a);
        Ok(())
    }

    /// The formula. Its models are the values of all variables that are as the gates say and under which each required
    /// wire is true. So on the inputs they are exactly the assignments from which the gates make all required wires
    /// true.
    pub fn formula(&self) -> &Formula
        ensures same { result.now ≡ formula_of self.now }
        ensures count { result.now.variables ≡ length (gates_of self.now) }
        ensures within { Within result.now.variables result.now.clauses }
        ensures ordered { Ordered (gates_of self.now) }
        ensures exact { (given : ℕ → Bool) → HasModel (gates_of self.now) result.now.clauses given
            ↔ MakesTrue (gates_of self.now) (required_of self.now) given }
        ensures sound { (v : ℕ → Bool) → Solves v result.now.clauses
            → Agrees (gates_of self.now) v × (all_true v (required_of self.now) ≡ true) }
        ensures complete { (v : ℕ → Bool) → Agrees (gates_of self.now) v → all_true v (required_of self.now) ≡ true
            → Solves v result.now.clauses }
    {
        &self.formula
    }

    /// The value of a wire under a model of the formula.
    pub fn value(&self, model: &[bool], a: Wire) -> bool
        requires own { IsWire (gates_of self.now) a }
        requires whole { length model.now ≡ length (gates_of self.now) }
        ensures { result ≡ literal_true (λ n. get_or model.now n false) a }
    {
        model[a.variable as usize] == a.positive
    }
}
