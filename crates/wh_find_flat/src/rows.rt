//! Rows of products: sums in which a single bit says whether a number is added.

ghost use Rattle.std.specs.Prelude.{◌≡◌, ◌+◌, ◌*◌, ◌<◌, ◌≤◌, ◌^◌, IfOk, OnOk, length, max};
ghost use Rattle.wh_circuit.specs.Gates.{AreWires, IsWire, MeansNumber};
ghost use Rattle.wh_circuit.specs.State.{gates_of};
ghost use Rattle.wh_circuit.specs.Values.{bit, number_of};
ghost use Rattle.wh_sat.specs.Solving.{literal_true};
ghost use Rattle.wh_find_flat.specs.Numbers.{Builds};

use std::alloc::{AllocError, Global};
use wh_circuit::{Circuit, Wire, Wires};

/// The number where the wire is true, else 0.
pub fn row(
    alloc: Global,
    circuit: &mut Circuit,
    wire: Wire,
    number: &[Wire],
) -> Result<Wires, AllocError>
    requires room { length (gates_of circuit.old) + length number.now < 2 ^ 31 }
    requires own { IsWire (gates_of circuit.old) wire }
    requires own_number { AreWires (gates_of circuit.old) number.now }
    ensures builds { OnOk result (Builds (length number.now) circuit.old circuit.new) }
    ensures means { IfOk result (λ made. MeansNumber (gates_of circuit.new) made
        (λ v. bit (literal_true v wire) * number_of v number.now)) }
    ensures width { IfOk result (λ made. length made ≡ length number.now) }
{
    let mut made = Wires::new(alloc);
    for digit in number {
        made.push(circuit.and(&[wire, *digit])?)?;
    }
    Ok(made)
}

/// The sum of a number and, where the wire is true, a second one.
pub fn with_row(
    alloc: Global,
    circuit: &mut Circuit,
    sum: &[Wire],
    wire: Wire,
    number: &[Wire],
) -> Result<Wires, AllocError>
    requires narrow { length sum.now ≤ 120 }
    requires narrow_number { length number.now ≤ 120 }
    requires room { length (gates_of circuit.old) + 1210 < 2 ^ 31 }
    requires own_sum { AreWires (gates_of circuit.old) sum.now }
    requires own { IsWire (gates_of circuit.old) wire }
    requires own_number { AreWires (gates_of circuit.old) number.now }
    ensures builds { OnOk result (Builds 1201 circuit.old circuit.new) }
    ensures means { IfOk result (λ made. MeansNumber (gates_of circuit.new) made
        (λ v. number_of v sum.now + bit (literal_true v wire) * number_of v number.now)) }
    ensures width { IfOk result (λ made. length made ≡ max (length sum.now) (length number.now) + 1) }
{
    let row = row(alloc, circuit, wire, number)?;
    wh_circuit_sums::sum(alloc, circuit, sum, row.as_slice())
}

/// Twice the number.
pub fn doubled(
    alloc: Global,
    circuit: &mut Circuit,
    number: &[Wire],
) -> Result<Vec<Wire>, AllocError>
    requires room { length (gates_of circuit.old) + 1 < 2 ^ 31 }
    requires own_number { AreWires (gates_of circuit.old) number.now }
    ensures builds { OnOk result (Builds 1 circuit.old circuit.new) }
    ensures means { IfOk result (λ made. MeansNumber (gates_of circuit.new) made.items (λ v. 2 * number_of v number.now)) }
    ensures width { IfOk result (λ made. length made.items ≡ length number.now + 1) }
{
    let zero = circuit.or(&[])?;
    let mut made = Vec::new(alloc);
    made.push(zero)?;
    made.extend_from_slice(number)?;
    Ok(made)
}
