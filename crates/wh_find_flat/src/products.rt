//! Sums of products with coefficients of two bits.

ghost use Rattle.std.specs.Prelude.{◌≡◌, ℕ, ◌+◌, ◌<◌, ◌≤◌, ◌^◌, IfOk, OnOk, Some, length, take, true};
ghost use Rattle.wh_circuit.specs.Gates.{AreWires};
ghost use Rattle.wh_circuit.specs.State.{gates_of};
ghost use Rattle.wh_find_flat.specs.Numbers.{Builds};
ghost use Rattle.wh_find_flat.specs.Products.{IsProduct};

use crate::rows::{doubled, with_row};
use std::alloc::{AllocError, Global};
use wh_circuit::{Circuit, Wire};

/// The sum of a number and the product of another one with a coefficient. The first bit of the coefficient is given; a
/// coefficient that is missing is 0. Of the sum only the lowest `width` bits are kept.
pub fn with_product(
    alloc: Global,
    circuit: &mut Circuit,
    first: Option<u32>,
    sum: &[Wire],
    number: &[Wire],
    width: usize,
) -> Result<Vec<Wire>, AllocError>
    requires narrow { length sum.now ≤ 118 }
    requires narrow_number { length number.now ≤ 118 }
    requires room { length (gates_of circuit.old) + 2413 < 2 ^ 31 }
    requires inputs { (x : ℕ) → first ≡ Some x → x + 1 < length (gates_of circuit.old) }
    requires own_sum { AreWires (gates_of circuit.old) sum.now }
    requires own_number { AreWires (gates_of circuit.old) number.now }
    ensures builds { OnOk result (Builds 2413 circuit.old circuit.new) }
    ensures product { IfOk result (λ made. IsProduct (gates_of circuit.new) first sum.now number.now width made.items) }
{
    let Some(first) = first else {
        return lowest(alloc, sum, width);
    };
    if number.is_empty() {
        return lowest(alloc, sum, width);
    }
    let once = with_row(alloc, circuit, sum, positive(first), number)?;
    let twice = doubled(alloc, circuit, number)?;
    let all = with_row(alloc, circuit, once.as_slice(), positive(first + 1), &twice)?;
    lowest(alloc, all.as_slice(), width)
}

/// The wire of a variable.
pub fn positive(variable: u32) -> Wire
    ensures { result ≡ record { variable = variable; positive = true } }
{
    Wire {
        variable,
        positive: true,
    }
}

// The lowest bits of a number.
fn lowest(alloc: Global, number: &[Wire], width: usize) -> Result<Vec<Wire>, AllocError>
    ensures { IfOk result (λ made. made.items ≡ take width number.now) }
{
    let count = width.min(number.len());
    let mut made = Vec::new(alloc);
    made.extend_from_slice(&number[..count])?;
    Ok(made)
}
