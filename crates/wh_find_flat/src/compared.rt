//! Comparing numbers of two sides, as gates or as what is required.

ghost use Rattle.std.specs.Prelude.{◌≡◌, ℕ, ◌+◌, ◌<◌, ◌≤◌, ◌^◌, Bool, IfOk, OnOk, false, length, max, nat_lt, not};
ghost use Rattle.wh_circuit.specs.Gates.{AreWires, Means};
ghost use Rattle.wh_circuit.specs.State.{gates_of};
ghost use Rattle.wh_circuit.specs.Values.{number_of};
ghost use Rattle.wh_sat.specs.Solving.{literal_true};
ghost use Rattle.wh_sat_trail.specs.Assignment.{AllBelow};
ghost use Rattle.wh_find_flat.specs.Numbers.{Asks, Builds};

use std::alloc::{AllocError, Global};
use wh_circuit::{Circuit, Wire};

/// True exactly where the first number is at least the second one.
pub fn at_least(
    alloc: Global,
    circuit: &mut Circuit,
    left: &[Wire],
    right: &[Wire],
) -> Result<Wire, AllocError>
    requires narrow { (length left.now ≤ 120) × (length right.now ≤ 120) }
    requires room { length (gates_of circuit.old) + 482 < 2 ^ 31 }
    requires own { AreWires (gates_of circuit.old) left.now × AreWires (gates_of circuit.old) right.now }
    ensures builds { OnOk result (Builds 482 circuit.old circuit.new) }
    ensures means { IfOk result (λ made. Means (gates_of circuit.new) made
        (λ v. not (nat_lt (number_of v left.now) (number_of v right.now)))) }
{
    let zero = circuit.or(&[])?;
    let width = left.len().max(right.len());
    let left = padded(alloc, left, zero, width)?;
    let right = padded(alloc, right, zero, width)?;
    circuit.at_least(&left, &right)
}

// The number with higher bits up to the width, each by a wire that is false.
fn padded(alloc: Global, number: &[Wire], zero: Wire, width: usize) -> Result<Vec<Wire>, AllocError>
    requires { length number.now ≤ width }
    ensures width { IfOk result (λ made. length made.items ≡ width) }
    ensures own { IfOk result (λ made. (n : ℕ) → AllBelow n number.now → zero.variable < n → AllBelow n made.items) }
    ensures same { IfOk result (λ made. (v : ℕ → Bool) → literal_true v zero ≡ false → number_of v made.items ≡ number_of v number.now) }
{
    let mut made = Vec::new(alloc);
    made.extend_from_slice(number)?;
    for _ in number.len()..width {
        made.push(zero)?;
    }
    Ok(made)
}

/// The first number has to be at least the second one.
pub fn require_at_least(
    alloc: Global,
    circuit: &mut Circuit,
    left: &[Wire],
    right: &[Wire],
) -> Result<(), AllocError>
    requires narrow { (length left.now ≤ 120) × (length right.now ≤ 120) }
    requires room { length (gates_of circuit.old) + 482 < 2 ^ 31 }
    requires own { AreWires (gates_of circuit.old) left.now × AreWires (gates_of circuit.old) right.now }
    ensures asks { OnOk result (Asks circuit.old circuit.new (λ v. number_of v right.now ≤ number_of v left.now)) }
    ensures few { OnOk result (length (gates_of circuit.new) ≤ length (gates_of circuit.old) + 482) }
{
    let wire = at_least(alloc, circuit, left, right)?;
    circuit.require(wire)
}
