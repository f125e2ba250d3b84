//! Circuits. Each variable of the formula is an input, or true exactly where all of some earlier wires are; all other
//! gates are made of these.

mod building;
mod gates;
mod mark;
mod numbers;
mod pairs;
mod returning;

ghost use Rattle.std.specs.Prelude.{◌≡◌, ℕ, Bool, true, Some, vec_len};
ghost use Rattle.wh_circuit.specs.Gates.{Agrees, IsAlwaysTrue, Ordered};
ghost use Rattle.wh_circuit.specs.Values.{all_true};
ghost use Rattle.wh_sat.specs.Solving.{Solves};
ghost use Rattle.wh_sat_trail.specs.Propagation.{Within};

pub use mark::Mark;
use std::alloc::Global;
use wh_circuit_gates::Wire;
use wh_sat_trail::{Clause, Formula};

/// What a variable is: an input, or true exactly where all of some wires are.
#[derive(Drop)]
pub struct Gate {
    /// Whether it is an input.
    pub is_input: bool,
    /// The wires: a gate that is no input is true exactly where all of them are.
    pub of: Clause,
}

/// Gates, and the clauses that say what they are and which wires are required to be true.
#[derive(Drop)]
pub struct Circuit {
    alloc: Global,
    formula: Formula,
    gates: Vec<Gate>,
    required: Vec<Wire>,
    truth: Option<u32>,
    ghost count: { vec_len gates ≡ formula.variables },
    ghost within: { Within formula.variables formula.clauses },
    ghost ordered: { Ordered gates.items },
    ghost always: { (k : ℕ) → truth ≡ Some k → IsAlwaysTrue gates.items k },
    ghost required_hold: { (v : ℕ → Bool) → Solves v formula.clauses → all_true v required.items ≡ true },
    ghost gates_hold: { (v : ℕ → Bool) → Solves v formula.clauses → Agrees gates.items v },
    ghost enough: { (v : ℕ → Bool) → Agrees gates.items v → all_true v required.items ≡ true → Solves v formula.clauses },
}
