//! Rows of circuits: each call once over inputs that are fixed, and what its wires come to under the solver's model.

ghost use Rattle.std.specs.Bool.{OnTrue};
ghost use Rattle.std.specs.Prelude.{◌≡◌, ◌+◌, ◌<◌, ◌^◌, length};
ghost use Rattle.wh_circuit.specs.Gates.{AreWires};
ghost use Rattle.wh_circuit.specs.State.{gates_of};

use crate::formulas::are_below;
use crate::solver_rows::solved;
use std::alloc::{AllocError, Global};
use std::test::Fail;
use wh_circuit::{Circuit, Wire, Wires, values_are_unique, values_exist};
use wh_sat::Outcome;

/// The calls that make wires of wires.
#[derive(Clone, Copy)]
enum Call {
    And,
    Or,
    ExactlyOne,
    AtLeast,
    Sum,
    Times,
}

// How many variables there are.
fn count(circuit: &Circuit) -> u32
    ensures { result ≡ length (gates_of circuit.now) }
{
    circuit.formula().variables
}

// Whether `more` variables may join.
fn has_room(circuit: &Circuit, more: usize) -> bool
    ensures { OnTrue result (length (gates_of circuit.now) + more < 2 ^ 31) }
{
    more < 1_000_000 && count(circuit) < 1_000_000
}

// Whether the wires are of the circuit.
fn are_own(circuit: &Circuit, of: &[Wire]) -> bool
    ensures { OnTrue result (AreWires (gates_of circuit.now) of.now) }
{
    are_below(count(circuit), of)
}

// The calls, each with a test of what it requires; want of memory stands for what is not met.

fn input(circuit: &mut Circuit) -> Result<Wire, AllocError> {
    if !has_room(circuit, 1) {
        return Err(AllocError);
    }
    circuit.input()
}

fn require(circuit: &mut Circuit, wire: Wire) -> Result<(), AllocError> {
    if wire.variable >= count(circuit) {
        return Err(AllocError);
    }
    circuit.require(wire)
}

fn and(circuit: &mut Circuit, of: &[Wire]) -> Result<Wire, AllocError> {
    if !has_room(circuit, 1) || !are_own(circuit, of) {
        return Err(AllocError);
    }
    circuit.and(of)
}

fn or(circuit: &mut Circuit, of: &[Wire]) -> Result<Wire, AllocError> {
    if !has_room(circuit, 1) || !are_own(circuit, of) {
        return Err(AllocError);
    }
    circuit.or(of)
}

fn exactly_one(circuit: &mut Circuit, of: &[Wire]) -> Result<Wire, AllocError> {
    let width = of.len();
    if width > 100 || !has_room(circuit, 3 * width + 2) || !are_own(circuit, of) {
        return Err(AllocError);
    }
    wh_circuit_sums::exactly_one(circuit, of)
}

fn at_least(circuit: &mut Circuit, a: &[Wire], b: &[Wire]) -> Result<Wire, AllocError> {
    let width = a.len();
    if width > 100 || b.len() != width || !has_room(circuit, 4 * width + 1) {
        return Err(AllocError);
    }
    if !are_own(circuit, a) || !are_own(circuit, b) {
        return Err(AllocError);
    }
    circuit.at_least(a, b)
}

fn sum(alloc: Global, circuit: &mut Circuit, a: &[Wire], b: &[Wire]) -> Result<Wires, AllocError> {
    let width = a.len().max(b.len());
    if width > 100 || !has_room(circuit, 9 * width + 1) {
        return Err(AllocError);
    }
    if !are_own(circuit, a) || !are_own(circuit, b) {
        return Err(AllocError);
    }
    wh_circuit_sums::sum(alloc, circuit, a, b)
}

fn times(
    alloc: Global,
    circuit: &mut Circuit,
    a: &[Wire],
    b: &[Wire],
) -> Result<Wires, AllocError> {
    if b.len() > 100 {
        return Err(AllocError);
    }
    let more = a.len().checked_mul(10 * b.len() + 1).ok_or(AllocError)?;
    if !has_room(circuit, more) || !are_own(circuit, a) || !are_own(circuit, b) {
        return Err(AllocError);
    }
    wh_circuit_products::times(alloc, circuit, a, b)
}

// The wire alone.
fn alone(alloc: Global, wire: Wire) -> Result<Wires, AllocError> {
    let mut made = Wires::new(alloc);
    made.push(wire)?;
    Ok(made)
}

// What a call makes. Those that take one list of wires take the first.
fn called(
    alloc: Global,
    circuit: &mut Circuit,
    call: Call,
    a: &[Wire],
    b: &[Wire],
) -> Result<Wires, AllocError> {
    match call {
        Call::And => alone(alloc, and(circuit, a)?),
        Call::Or => alone(alloc, or(circuit, a)?),
        Call::ExactlyOne => alone(alloc, exactly_one(circuit, a)?),
        Call::AtLeast => alone(alloc, at_least(circuit, a, b)?),
        Call::Sum => sum(alloc, circuit, a, b),
        Call::Times => times(alloc, circuit, a, b),
    }
}

// An input is fixed to each of the values.
fn fixed(alloc: Global, circuit: &mut Circuit, values: &[bool]) -> Result<Wires, AllocError> {
    let mut made = Wires::new(alloc);
    for value in values {
        let wire = input(circuit)?;
        made.push(wire)?;
        require(circuit, if *value { wire } else { circuit.not(wire) })?;
    }
    Ok(made)
}

// The value of a wire; want of memory stands for one that is not there.
fn value_of(circuit: &Circuit, model: &[bool], wire: Wire) -> Result<bool, AllocError> {
    let count = count(circuit);
    if wire.variable >= count || model.len() != count as usize {
        return Err(AllocError);
    }
    Ok(circuit.value(model, wire))
}

// The wires' values are written, the first one first.
fn add_values(
    text: &mut String,
    circuit: &Circuit,
    model: &[bool],
    of: &[Wire],
) -> Result<(), AllocError> {
    for wire in of {
        text.push_str(if value_of(circuit, model, *wire)? {
            "1"
        } else {
            "0"
        })?;
    }
    Ok(())
}

// The wires' values under the model that the solver finds.
fn told(alloc: Global, circuit: &Circuit, of: &[Wire]) -> Result<String, AllocError> {
    let mut text = String::new(alloc);
    match solved(alloc, circuit.formula(), 1_000)? {
        Outcome::Sat(model) => add_values(&mut text, circuit, &model, of)?,
        Outcome::Unsat => text.push_str("unsat")?,
        Outcome::Spent(_) => text.push_str("spent")?,
    }
    Ok(text)
}

// The values of a call's wires over inputs of these values.
fn come_to(
    alloc: Global,
    call: Call,
    first: &[bool],
    second: &[bool],
) -> Result<String, AllocError> {
    let mut circuit = Circuit::new(alloc);
    let a = fixed(alloc, &mut circuit, first)?;
    let b = fixed(alloc, &mut circuit, second)?;
    let made = called(alloc, &mut circuit, call, a.as_slice(), b.as_slice())?;
    told(alloc, &circuit, made.as_slice())
}

/// Numbers, and no wires.
const THREE: &[bool] = &[true, true];

const TWO: &[bool] = &[false, true];

const ONE: &[bool] = &[true, false];

const NOTHING: &[bool] = &[];

/// Calls over fixed inputs and what their wires come to, of numbers the lowest bit first.
const CALLS: &[(Call, &[bool], &[bool], &str)] = &[
    // 9 and 6.
    (Call::Times, THREE, THREE, "1001"),
    (Call::Sum, THREE, THREE, "011"),
    (Call::ExactlyOne, &[false, false, true], NOTHING, "1"),
    (Call::ExactlyOne, &[false, true, true], NOTHING, "0"),
    (Call::AtLeast, TWO, ONE, "1"),
    (Call::AtLeast, ONE, TWO, "0"),
    (Call::And, THREE, NOTHING, "1"),
    (Call::And, TWO, NOTHING, "0"),
    (Call::Or, TWO, NOTHING, "1"),
    (Call::Or, &[false, false], NOTHING, "0"),
    // The calls on no wires.
    (Call::And, NOTHING, NOTHING, "1"),
    (Call::AtLeast, NOTHING, NOTHING, "1"),
    (Call::Or, NOTHING, NOTHING, "0"),
    (Call::ExactlyOne, NOTHING, NOTHING, "0"),
];

#[test]
fn circuits_come_to_their_values(rt: HostRuntime) -> Result<(), Fail> {
    let alloc = rt.alloc();
    for (call, first, second, expected) in CALLS {
        let text = come_to(alloc, *call, *first, *second)?;
        assert_eq!(rt; text.as_str(), *expected);
    }
    Ok(())
}

// The answer about a circuit that requires an input and its negation.
fn contradiction(alloc: Global) -> Result<String, AllocError> {
    let mut circuit = Circuit::new(alloc);
    let wire = input(&mut circuit)?;
    require(&mut circuit, wire)?;
    let negation = circuit.not(wire);
    require(&mut circuit, negation)?;
    told(alloc, &circuit, &[])
}

#[test]
fn refuses_an_input_and_its_negation(rt: HostRuntime) -> Result<(), Fail> {
    values_exist();
    values_are_unique();
    let text = contradiction(rt.alloc())?;
    assert_eq!(rt; text.as_str(), "unsat");
    Ok(())
}
