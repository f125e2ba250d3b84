//! Whether bits can meet a demand, by a circuit and a solver. `meet` is the main function.

ghost use Rattle.std.specs.Prelude.{◌≡◌, ◌≤◌, ◌&&◌, ◌||◌, [], IfOk, IfSome, false, length, true};
ghost use Rattle.wh_circuit.specs.Gates.{IsWire};
ghost use Rattle.wh_circuit.specs.State.{gates_of, required_of};
ghost use Rattle.wh_order_meeting.specs.Meeting.{AreInputs, IsBuilt, IsInputOf, IsJoined, IsMeeting, IsSolved, IsWireAt};
ghost use Rattle.wh_sat.specs.Solving.{literal_true};

use crate::numbering::numbered;
use std::alloc::{AllocError, Global};
use wh_circuit::{Circuit, Wire};
use wh_order_demands::{Demand, named_bits};
use wh_sat::{Outcome, solve};
use wh_types::counted;

/// Whether bits can meet a demand.
#[derive(Drop)]
pub enum Meeting {
    /// No bits meet the demand.
    Never,
    /// Values of bits that are worth trying; nothing is promised of them.
    Bits(Vec<bool>),
    /// It is not known.
    Open,
}

// No circuit gets more gates.
const MOST_GATES: u32 = 2_000_000;

/// Whether bits numbered below `count` can meet the demand. `Open` comes where the circuit gets too large, where the
/// demand names another bit, or where the budget is spent.
pub fn meet(alloc: Global, demand: &Demand, count: u32, budget: u64) -> Result<Meeting, AllocError>
    ensures { IfOk result (IsMeeting demand.now) }
{
    let named = named_bits(alloc, demand, count)?;
    let numbering = numbered(alloc, &named)?;
    let inputs = counted(numbering.bits.len())?;
    if inputs > MOST_GATES {
        return Ok(Meeting::Open);
    }
    let mut circuit = circuit_with(alloc, inputs)?;
    match wire_of(&mut circuit, demand, &numbering.places)? {
        None => Ok(Meeting::Open),
        Some(wire) => solved(alloc, circuit, wire, &numbering.places, budget),
    }
}

// Whether the wire can be true.
fn solved(
    alloc: Global,
    circuit: Circuit,
    wire: Wire,
    places: &[Option<u32>],
    budget: u64,
) -> Result<Meeting, AllocError>
    requires { IsWire (gates_of circuit) wire }
    ensures { IfOk result (IsSolved circuit wire) }
{
    let mut circuit = circuit;
    circuit.require(wire)?;
    match solve(alloc, circuit.formula(), budget)? {
        Outcome::Sat(values) => Ok(Meeting::Bits(bits_by(alloc, &values, places)?)),
        Outcome::Unsat => Ok(Meeting::Never),
        Outcome::Spent(_) => Ok(Meeting::Open),
    }
}

// The values of bits by those of their inputs; a bit without an input is not set.
fn bits_by(
    alloc: Global,
    values: &[bool],
    places: &[Option<u32>],
) -> Result<Vec<bool>, AllocError> {
    let mut bits = Vec::new(alloc);
    for place in places {
        bits.push(value_at(values, *place))?;
    }
    Ok(bits)
}

// The value of the input, if there is one.
fn value_at(values: &[bool], input: Option<u32>) -> bool {
    match input {
        Some(input) => match values.get(input as usize) {
            Some(value) => *value,
            None => false,
        },
        None => false,
    }
}

// A circuit of `count` inputs.
fn circuit_with(alloc: Global, count: u32) -> Result<Circuit, AllocError>
    requires { count ≤ 2000000 }
    ensures inputs { IfOk result (λ made. AreInputs count (gates_of made)) }
    ensures count { IfOk result (λ made. length (gates_of made) ≡ count) }
    ensures required { IfOk result (λ made. required_of made ≡ []) }
{
    let mut circuit = Circuit::new(alloc);
    for _ in 0..count {
        circuit.input()?;
    }
    Ok(circuit)
}

// A wire that is true exactly where the bits meet the demand; `None` where the circuit gets too large or the demand
// names a bit without an input.
fn wire_of(
    circuit: &mut Circuit,
    demand: &Demand,
    places: &[Option<u32>],
) -> Result<Option<Wire>, AllocError>
    ensures { IfOk result (IsBuilt places.now demand.now circuit.old circuit.new) }
{
    match demand {
        Demand::Always => always(circuit),
        Demand::Never => never(circuit),
        Demand::Bit(bit) => Ok(wire_in(circuit, *bit, places, true)),
        Demand::NoBit(bit) => Ok(wire_in(circuit, *bit, places, false)),
        Demand::Both(left, right) => match wire_of(circuit, left, places)? {
            None => Ok(None),
            Some(first) => match wire_of(circuit, right, places)? {
                None => Ok(None),
                Some(second) => both(circuit, first, second),
            },
        },
        Demand::Either(left, right) => match wire_of(circuit, left, places)? {
            None => Ok(None),
            Some(first) => match wire_of(circuit, right, places)? {
                None => Ok(None),
                Some(second) => either(circuit, first, second),
            },
        },
    }
}

// A wire that is true, where there is room for a gate.
fn always(circuit: &mut Circuit) -> Result<Option<Wire>, AllocError>
    ensures { IfOk result (IsJoined circuit.old circuit.new (λ v. true)) }
{
    if circuit.formula().variables >= MOST_GATES {
        return Ok(None);
    }
    Ok(Some(circuit.and(&[])?))
}

// One that is false.
fn never(circuit: &mut Circuit) -> Result<Option<Wire>, AllocError>
    ensures { IfOk result (IsJoined circuit.old circuit.new (λ v. false)) }
{
    if circuit.formula().variables >= MOST_GATES {
        return Ok(None);
    }
    Ok(Some(circuit.or(&[])?))
}

// The wire of a bit, or of its negation, where it has an input of the circuit.
fn wire_in(circuit: &Circuit, bit: u32, places: &[Option<u32>], positive: bool) -> Option<Wire>
    ensures at { IsWireAt bit places.now positive result }
    ensures own { IfSome result (IsWire (gates_of circuit.now)) }
{
    let wire = wire_at(bit, places, positive)?;
    if wire.variable < circuit.formula().variables {
        Some(wire)
    } else {
        None
    }
}

// The wire of a bit, or of its negation, where it has an input.
fn wire_at(bit: u32, places: &[Option<u32>], positive: bool) -> Option<Wire>
    ensures { IsWireAt bit places.now positive result }
{
    let variable = input_of(places, bit)?;
    Some(Wire { variable, positive })
}

// The input of the bit.
fn input_of(places: &[Option<u32>], bit: u32) -> Option<u32>
    ensures { IsInputOf places.now bit result }
{
    let place = bit as usize;
    if place < places.len() {
        places[place]
    } else {
        None
    }
}

// The wire that is true where both wires are, if there is room for a gate.
fn both(circuit: &mut Circuit, left: Wire, right: Wire) -> Result<Option<Wire>, AllocError>
    requires left { IsWire (gates_of circuit.old) left }
    requires right { IsWire (gates_of circuit.old) right }
    ensures { IfOk result (IsJoined circuit.old circuit.new (λ v. literal_true v left && literal_true v right)) }
{
    if circuit.formula().variables >= MOST_GATES {
        return Ok(None);
    }
    Ok(Some(circuit.and(&[left, right])?))
}

// One of the wires is true, where there is room for a gate.
fn either(circuit: &mut Circuit, left: Wire, right: Wire) -> Result<Option<Wire>, AllocError>
    requires left { IsWire (gates_of circuit.old) left }
    requires right { IsWire (gates_of circuit.old) right }
    ensures { IfOk result (IsJoined circuit.old circuit.new (λ v. literal_true v left || literal_true v right)) }
{
    if circuit.formula().variables >= MOST_GATES {
        return Ok(None);
    }
    Ok(Some(circuit.or(&[left, right])?))
}
