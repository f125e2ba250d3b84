//! Products of numbers whose bits are wires, as sums of rows. `times` is the main function.

ghost use Rattle.std.specs.Prelude.{◌≡◌, ℕ, ◌+◌, ◌*◌, ◌<◌, ◌≤◌, ◌^◌, Bool, IfOk, OnErr, OnOk, length};
ghost use Rattle.wh_circuit.specs.Gates.{AreWires, IsWire, MeansNumber};
ghost use Rattle.wh_circuit.specs.State.{Grows, Unchanged, gates_of};
ghost use Rattle.wh_circuit.specs.Values.{bit, number_of};
ghost use Rattle.wh_sat.specs.Solving.{literal_true};

use std::alloc::{AllocError, Global};
use wh_circuit::Circuit;
use wh_circuit_gates::{Wire, Wires, wires_from};
use wh_circuit_sums::added;

/// The bits of the product of two numbers, at most as many as both have together. At most ten variables join for each
/// bit of the first and each of the second, and one more for each bit of the first.
pub fn times(
    alloc: Global,
    circuit: &mut Circuit,
    a: &[Wire],
    b: &[Wire],
) -> Result<Wires, AllocError>
    requires room { length (gates_of circuit.old) + length a.now * (10 * length b.now + 1) < 2 ^ 31 }
    requires own_a { AreWires (gates_of circuit.old) a.now }
    requires own_b { AreWires (gates_of circuit.old) b.now }
    ensures grows { OnOk result (Grows (length a.now * (10 * length b.now + 1)) circuit.old circuit.new) }
    ensures means { IfOk result (λ made. MeansNumber (gates_of circuit.new) made (λ v. number_of v a.now * number_of v b.now)) }
    ensures width { IfOk result (λ made. length made ≤ length a.now + length b.now) }
    ensures err { OnErr result (Unchanged circuit.old circuit.new) }
{
    let mark = circuit.mark();
    match multiplied(alloc, circuit, a, b) {
        Ok(made) => Ok(made),
        Err(error) => {
            circuit.restore(mark);
            Err(error)
        }
    }
}

// The bits of the product, as for `times`; where memory is wanting, gates may be left that `times` takes back. After
// each row the lowest bits of the product are made, and `rest` is what the rows so far leave for the higher ones.
fn multiplied(
    alloc: Global,
    circuit: &mut Circuit,
    a: &[Wire],
    b: &[Wire],
) -> Result<Wires, AllocError>
    requires room { length (gates_of circuit.old) + length a.now * (10 * length b.now + 1) < 2 ^ 31 }
    requires own_a { AreWires (gates_of circuit.old) a.now }
    requires own_b { AreWires (gates_of circuit.old) b.now }
    ensures grows { Grows (length a.now * (10 * length b.now + 1)) circuit.old circuit.new }
    ensures means { IfOk result (λ made. MeansNumber (gates_of circuit.new) made (λ v. number_of v a.now * number_of v b.now)) }
    ensures width { IfOk result (λ made. length made ≤ length a.now + length b.now) }
{
    let mut made = Wires::new(alloc);
    let mut rest = Wires::new(alloc);
    for wire in a {
        let sum = with_row(alloc, circuit, rest.as_slice(), *wire, b)?;
        made.push(sum.as_slice()[0])?;
        rest = wires_from(alloc, sum.as_slice(), 1)?;
    }
    made.extend(rest)?;
    Ok(made)
}

// A number and, where the wire is true, a second one.
fn with_row(
    alloc: Global,
    circuit: &mut Circuit,
    rest: &[Wire],
    wire: Wire,
    b: &[Wire],
) -> Result<Wires, AllocError>
    requires room { length (gates_of circuit.old) + (10 * length b.now + 1) < 2 ^ 31 }
    requires wide { length rest.now ≤ length b.now }
    requires own_rest { AreWires (gates_of circuit.old) rest.now }
    requires own { IsWire (gates_of circuit.old) wire }
    requires own_b { AreWires (gates_of circuit.old) b.now }
    ensures grows { Grows (10 * length b.now + 1) circuit.old circuit.new }
    ensures means { IfOk result (λ made. MeansNumber (gates_of circuit.new) made
        (λ v. number_of v rest.now + bit (literal_true v wire) * number_of v b.now)) }
    ensures width { IfOk result (λ made. length made ≡ length b.now + 1) }
{
    let row = row(alloc, circuit, wire, b)?;
    added(alloc, circuit, rest, row.as_slice(), b.len())
}

// The number where the wire is true, else 0.
fn row(alloc: Global, circuit: &mut Circuit, wire: Wire, b: &[Wire]) -> Result<Wires, AllocError>
    requires room { length (gates_of circuit.old) + length b.now < 2 ^ 31 }
    requires own { IsWire (gates_of circuit.old) wire }
    requires own_b { AreWires (gates_of circuit.old) b.now }
    ensures grows { Grows (length b.now) circuit.old circuit.new }
    ensures means { IfOk result (λ made. MeansNumber (gates_of circuit.new) made (λ v. bit (literal_true v wire) * number_of v b.now)) }
    ensures width { IfOk result (λ made. length made ≡ length b.now) }
{
    let mut made = Wires::new(alloc);
    for digit in b {
        let both = circuit.both(wire, *digit)?;
        made.push(both)?;
    }
    Ok(made)
}
