//! Sums of numbers whose bits are wires, bit by bit with a carry.

ghost use Rattle.std.specs.Prelude.{◌≡◌, ℕ, ◌+◌, ◌*◌, ◌<◌, ◌≤◌, ◌^◌, ◌&&◌, ◌||◌, Bool, IfOk, OnErr, OnOk, get_or, length, max, not};
ghost use Rattle.wh_circuit.specs.Gates.{AreWires, IsWire, Means, MeansNumber};
ghost use Rattle.wh_circuit.specs.State.{Grows, Unchanged, gates_of};
ghost use Rattle.wh_circuit_sums.specs.Steps.{Adds};
ghost use Rattle.wh_circuit.specs.Values.{number_of};
ghost use Rattle.wh_sat.specs.Solving.{literal_true};

use crate::digit::Digit;
use std::alloc::{AllocError, Global};
use wh_circuit::Circuit;
use wh_circuit_gates::{Wire, Wires};

/// The bits of the sum of two numbers, one more than the longer has. At most nine variables join for each bit of the
/// longer, and one more.
pub fn sum(
    alloc: Global,
    circuit: &mut Circuit,
    a: &[Wire],
    b: &[Wire],
) -> Result<Wires, AllocError>
    requires room { length (gates_of circuit.old) + (9 * max (length a.now) (length b.now) + 1) < 2 ^ 31 }
    requires own_a { AreWires (gates_of circuit.old) a.now }
    requires own_b { AreWires (gates_of circuit.old) b.now }
    ensures grows { OnOk result (Grows (9 * max (length a.now) (length b.now) + 1) circuit.old circuit.new) }
    ensures means { IfOk result (λ made. MeansNumber (gates_of circuit.new) made (λ v. number_of v a.now + number_of v b.now)) }
    ensures width { IfOk result (λ made. length made ≡ max (length a.now) (length b.now) + 1) }
    ensures err { OnErr result (Unchanged circuit.old circuit.new) }
{
    let width = a.len().max(b.len());
    let mark = circuit.mark();
    match added(alloc, circuit, a, b, width) {
        Ok(made) => Ok(made),
        Err(error) => {
            circuit.restore(mark);
            Err(error)
        }
    }
}

/// The sum of two numbers of at most `width` bits. Where memory is wanting, gates may be left that `sum` takes back.
pub fn added(
    alloc: Global,
    circuit: &mut Circuit,
    a: &[Wire],
    b: &[Wire],
    width: usize,
) -> Result<Wires, AllocError>
    requires room { length (gates_of circuit.old) + (9 * width + 1) < 2 ^ 31 }
    requires wide_a { length a.now ≤ width }
    requires wide_b { length b.now ≤ width }
    requires own_a { AreWires (gates_of circuit.old) a.now }
    requires own_b { AreWires (gates_of circuit.old) b.now }
    ensures grows { Grows (9 * width + 1) circuit.old circuit.new }
    ensures means { IfOk result (λ made. MeansNumber (gates_of circuit.new) made (λ v. number_of v a.now + number_of v b.now)) }
    ensures width { IfOk result (λ made. length made ≡ width + 1) }
{
    let zero = circuit.falsity()?;
    let mut made = Wires::new(alloc);
    let mut carry = zero;
    for i in 0..width {
        let digit = added_bits(circuit, bit_at(a, i, zero), bit_at(b, i, zero), carry)?;
        made.push(digit.low)?;
        carry = digit.high;
    }
    made.push(carry)?;
    Ok(made)
}

// The sum of three bits.
fn added_bits(circuit: &mut Circuit, a: Wire, b: Wire, c: Wire) -> Result<Digit, AllocError>
    requires room { length (gates_of circuit.old) + 9 < 2 ^ 31 }
    requires own_a { IsWire (gates_of circuit.old) a }
    requires own_b { IsWire (gates_of circuit.old) b }
    requires own_c { IsWire (gates_of circuit.old) c }
    ensures grows { Grows 9 circuit.old circuit.new }
    ensures means { IfOk result (λ digit. Adds (gates_of circuit.new) digit a b c) }
{
    let apart = unlike(circuit, a, b)?;
    let low = unlike(circuit, apart, c)?;
    let high = circuit.either_pair(a, b, apart, c)?;
    Ok(Digit { low, high })
}

// True where just one of the wires is.
fn unlike(circuit: &mut Circuit, a: Wire, b: Wire) -> Result<Wire, AllocError>
    requires room { length (gates_of circuit.old) + 3 < 2 ^ 31 }
    requires own_a { IsWire (gates_of circuit.old) a }
    requires own_b { IsWire (gates_of circuit.old) b }
    ensures grows { Grows 3 circuit.old circuit.new }
    ensures means { IfOk result (λ made. Means (gates_of circuit.new) made
        (λ v. literal_true v a && not (literal_true v b) || not (literal_true v a) && literal_true v b)) }
{
    let no_a = circuit.not(a);
    let no_b = circuit.not(b);
    circuit.either_pair(a, no_b, no_a, b)
}

// The bit at a place, or the other wire past the end.
fn bit_at(of: &[Wire], place: usize, other: Wire) -> Wire
    ensures { result ≡ get_or of.now place other }
{
    if place < of.len() { of[place] } else { other }
}
