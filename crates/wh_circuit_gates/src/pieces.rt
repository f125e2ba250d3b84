//! The clauses that say what a gate is, and negations of wires.

ghost use Rattle.std.specs.Prelude.{◌≡◌, IfOk, [], ◌∷◌, drop, map};
ghost use Rattle.wh_circuit_gates.specs.Clauses.{gate_clauses, no, shorts, yes};
ghost use Rattle.wh_sat_trail.specs.Assignment.{negated};

use crate::wire::{Wire, Wires};
use std::alloc::{AllocError, Global};
use wh_sat_trail::{Clause, Clauses};

/// What a gate is, in clauses: one for each of its wires, and a long one.
pub fn clauses_of_gate(alloc: Global, number: u32, of: &[Wire]) -> Result<Clauses, AllocError>
    ensures { IfOk result (λ made. made ≡ gate_clauses number of.now) }
{
    let mut clauses = shorts_of(alloc, number, of)?;
    clauses.push(long_of(alloc, number, of)?)?;
    Ok(clauses)
}

// The clauses for each of the wires.
fn shorts_of(alloc: Global, number: u32, of: &[Wire]) -> Result<Clauses, AllocError>
    ensures { IfOk result (λ made. made ≡ shorts number of.now) }
{
    let mut clauses = Clauses::new(alloc);
    for wire in of {
        clauses.push(short(alloc, number, *wire)?)?;
    }
    Ok(clauses)
}

// The variable is true, or one of the wires is false.
fn long_of(alloc: Global, number: u32, of: &[Wire]) -> Result<Clause, AllocError>
    ensures { IfOk result (λ made. made ≡ yes number ∷ map negated of.now) }
{
    let mut clause = Clause::new(alloc);
    clause.push(Wire {
        variable: number,
        positive: true,
    })?;
    for wire in of {
        clause.push(Wire {
            variable: wire.variable,
            positive: !wire.positive,
        })?;
    }
    Ok(clause)
}

// The variable is false, or the wire is true.
fn short(alloc: Global, number: u32, wire: Wire) -> Result<Clause, AllocError>
    ensures { IfOk result (λ made. made ≡ no number ∷ wire ∷ []) }
{
    let mut clause = Clause::new(alloc);
    clause.push(Wire {
        variable: number,
        positive: false,
    })?;
    clause.push(wire)?;
    Ok(clause)
}

/// The negations of wires.
pub fn negations_of(alloc: Global, of: &[Wire]) -> Result<Vec<Wire>, AllocError>
    ensures { IfOk result (λ made. made.items ≡ map negated of.now) }
{
    let mut made = Vec::new(alloc);
    for wire in of {
        made.push(Wire {
            variable: wire.variable,
            positive: !wire.positive,
        })?;
    }
    Ok(made)
}

/// A list of these wires, from a place on.
pub fn wires_from(alloc: Global, of: &[Wire], from: usize) -> Result<Wires, AllocError>
    ensures { IfOk result (λ made. made ≡ drop from of.now) }
{
    let mut made = Wires::new(alloc);
    for place in from..of.len() {
        made.push(of[place])?;
    }
    Ok(made)
}
