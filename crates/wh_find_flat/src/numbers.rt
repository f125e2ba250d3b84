//! The numbers that a flat term comes to, made of gates over the bits of coefficients. `number` is the main function.

ghost use Rattle.std.specs.Prelude.{ℕ, ◌+◌, ◌*◌, ◌-◌, ◌<◌, ◌≤◌, ◌^◌, IfOk, List, OnOk, length};
ghost use Rattle.wh_terms.specs.Erase.{tm};
ghost use Rattle.wh_terms.specs.Tree.{Tm, app, fun, meta, none};
ghost use Rattle.wh_poly_blocking.specs.Sizes.{bits_in};
ghost use Rattle.wh_circuit.specs.Gates.{AreWires, MeansNumber};
ghost use Rattle.wh_circuit.specs.State.{gates_of};
ghost use Rattle.wh_poly_flat.specs.Flat.{occurrences};
ghost use Rattle.wh_poly_flat.specs.Worth.{coefficient};
ghost use Rattle.wh_find_flat.specs.Lists.{lists_for};
ghost use Rattle.wh_find_flat.specs.Plain.{IsPlain};
ghost use Rattle.wh_find_flat.specs.Numbers.{Builds, IsValue};
ghost use Rattle.wh_find_flat.specs.declared.part.Part.{Part};

use crate::bits::Bits;
use crate::part::Part;
use crate::products::{positive, with_product};
use crate::value::Value;
use std::alloc::{AllocError, Global};
use wh_circuit::{Circuit, Wire};
use wh_terms::Term;

/// A number of the term: its constant, or the factor of a meta-variable. At most 2,414 variables join for each symbol
/// and meta-variable in it.
pub fn number(
    alloc: Global,
    circuit: &mut Circuit,
    bits: &Bits,
    part: Part,
    term: &Term,
) -> Result<Value, AllocError>
    requires plain { IsPlain (tm term.now) }
    requires small { occurrences (tm term.now) ≤ 60 }
    requires inputs { bits_in bits.now.sizes.items ≤ length (gates_of circuit.old) }
    requires room { length (gates_of circuit.old) + 2414 * occurrences (tm term.now) < 2 ^ 31 }
    ensures builds { OnOk result (Builds (2414 * occurrences (tm term.now) - 2413) circuit.old circuit.new) }
    ensures value { IfOk result (IsValue bits.now.sizes.items part (gates_of circuit.new) (tm term.now)) }
{
    match term {
        Term::Fun(symbol) => symbol_value(alloc, circuit, bits, part, *symbol as usize),
        Term::Meta(meta, _) => meta_value(alloc, circuit, part, *meta),
        Term::App(function, argument) => {
            let front = number(alloc, circuit, bits, part, function)?;
            let last = number(alloc, circuit, bits, part, argument)?;
            applied(alloc, circuit, bits, front, last)
        }
        _ => unreachable!(),
    }
}

// The number of a symbol alone.
fn symbol_value(
    alloc: Global,
    circuit: &Circuit,
    bits: &Bits,
    part: Part,
    symbol: usize,
) -> Result<Value, AllocError>
    requires inputs { bits_in bits.now.sizes.items ≤ length (gates_of circuit.now) }
    ensures { IfOk result (IsValue bits.now.sizes.items part (gates_of circuit.now) (fun symbol)) }
{
    let wires = match part {
        Part::Constant => constant_wires(alloc, circuit, bits, symbol)?,
        Part::Factor(_) => Vec::new(alloc),
    };
    Ok(Value {
        wires,
        occurrences: 1,
        symbol,
        places: 0,
    })
}

// The bits of the constant of a symbol.
fn constant_wires(
    alloc: Global,
    circuit: &Circuit,
    bits: &Bits,
    symbol: usize,
) -> Result<Vec<Wire>, AllocError>
    requires inputs { bits_in bits.now.sizes.items ≤ length (gates_of circuit.now) }
    ensures means { IfOk result (λ made. MeansNumber (gates_of circuit.now) made.items
        (λ v. coefficient (lists_for bits.now.sizes.items v) symbol 0)) }
    ensures width { IfOk result (λ made. length made.items ≤ 2) }
{
    let mut wires = Vec::new(alloc);
    if let Some(first) = bits.of_coefficient(symbol, 0) {
        wires.push(positive(first))?;
        wires.push(positive(first + 1))?;
    }
    Ok(wires)
}

// The number of a meta-variable: its own factor is 1.
fn meta_value(
    alloc: Global,
    circuit: &mut Circuit,
    part: Part,
    number: u32,
) -> Result<Value, AllocError>
    requires room { length (gates_of circuit.old) + 1 < 2 ^ 31 }
    ensures builds { OnOk result (Builds 1 circuit.old circuit.new) }
    ensures value { (sizes : List ℕ) → IfOk result (IsValue sizes part (gates_of circuit.new) (meta number none)) }
{
    let mut wires = Vec::new(alloc);
    if matches!(part, Part::Factor(asked) if asked == number as usize) {
        wires.push(circuit.and(&[])?)?;
    }
    Ok(Value {
        wires,
        occurrences: 1,
        symbol: 0,
        places: 0,
    })
}

// The number of a term applied to one more argument.
fn applied(
    alloc: Global,
    circuit: &mut Circuit,
    bits: &Bits,
    front: Value,
    last: Value,
) -> Result<Value, AllocError>
    requires few { front.occurrences + last.occurrences ≤ 60 }
    requires some { (1 ≤ front.occurrences) × (1 ≤ last.occurrences) }
    requires widths { (length front.wires.items ≤ 2 * front.occurrences) × (length last.wires.items ≤ 2 * last.occurrences) }
    requires inputs { bits_in bits.now.sizes.items ≤ length (gates_of circuit.old) }
    requires room { length (gates_of circuit.old) + 2414 < 2 ^ 31 }
    requires places { front.places ≤ 60 }
    requires own { AreWires (gates_of circuit.old) front.wires.items × AreWires (gates_of circuit.old) last.wires.items }
    ensures builds { OnOk result (Builds 2413 circuit.old circuit.new) }
    ensures value { (part : Part) (t u : Tm) → IsPlain t → IsPlain u
        → IsValue bits.now.sizes.items part (gates_of circuit.old) t front → IsValue bits.now.sizes.items part (gates_of circuit.old) u last
        → IfOk result (IsValue bits.now.sizes.items part (gates_of circuit.new) (app t u)) }
{
    let occurrences = front.occurrences + last.occurrences;
    let places = front.places + 1;
    let coefficient = bits.of_coefficient(front.symbol, places);
    let wires = with_product(
        alloc,
        circuit,
        coefficient,
        &front.wires,
        &last.wires,
        2 * occurrences,
    )?;
    Ok(Value {
        wires,
        occurrences,
        symbol: front.symbol,
        places,
    })
}
