//! The sides of rules and pairs, of which the left one has to be at least the right one.

ghost use Rattle.std.specs.Prelude.{◌≡◌, ℕ, ◌+◌, ◌*◌, ◌-◌, ◌<◌, ◌≤◌, ◌^◌, IfOk, OnOk, length, nat_lt, true};
ghost use Rattle.wh_terms.specs.Erase.{tm};
ghost use Rattle.wh_poly_blocking.specs.Sizes.{bits_in};
ghost use Rattle.wh_circuit.specs.Gates.{Means};
ghost use Rattle.wh_circuit.specs.State.{gates_of};
ghost use Rattle.wh_poly_flat.specs.Flat.{occurrences};
ghost use Rattle.wh_poly_flat.specs.Worth.{IsAtLeast, constant_of, factor_of};
ghost use Rattle.wh_find_flat.specs.Lists.{lists_for};
ghost use Rattle.wh_find_flat.specs.Plain.{ArePlainSides, stands_in};
ghost use Rattle.wh_find_flat.specs.Parts.{number_at};
ghost use Rattle.wh_find_flat.specs.Numbers.{Asks};

use crate::bits::Bits;
use crate::compared::{at_least, require_at_least};
use crate::numbers::number;
use crate::part::Part;
use crate::stands::stands;
use std::alloc::{AllocError, Global};
use wh_circuit::{Circuit, Wire};
use wh_terms::Term;

/// Requires of a rule that its left side is at least the right one; all meta-variables have numbers below `metas`. At
/// most 147,254 variables join for each symbol and meta-variable in the sides.
pub fn require_rule(
    alloc: Global,
    circuit: &mut Circuit,
    bits: &Bits,
    metas: usize,
    left: &Term,
    right: &Term,
) -> Result<(), AllocError>
    requires plain { ArePlainSides (tm left.now) (tm right.now) }
    requires metas { (z : ℕ) → stands_in z (tm right.now) ≡ true → z < metas }
    requires inputs { bits_in bits.now.sizes.items ≤ length (gates_of circuit.old) }
    requires room { length (gates_of circuit.old) + 147254 * (occurrences (tm left.now) + occurrences (tm right.now)) < 2 ^ 31 }
    ensures asks { OnOk result (Asks circuit.old circuit.new
        (λ v. IsAtLeast (lists_for bits.now.sizes.items v) (tm left.now) (tm right.now))) }
    ensures few { OnOk result (length (gates_of circuit.new) + 261862
        ≤ length (gates_of circuit.old) + 147254 * (occurrences (tm left.now) + occurrences (tm right.now))) }
{
    require_part(alloc, circuit, bits, Part::Constant, left, right)?;
    require_factors(alloc, circuit, bits, metas, left, right)
}

/// Requires of a pair that its left side is at least the right one; the wire is true exactly where the constant of the
/// left side is greater.
pub fn require_pair(
    alloc: Global,
    circuit: &mut Circuit,
    bits: &Bits,
    metas: usize,
    left: &Term,
    right: &Term,
) -> Result<Wire, AllocError>
    requires plain { ArePlainSides (tm left.now) (tm right.now) }
    requires metas { (z : ℕ) → stands_in z (tm right.now) ≡ true → z < metas }
    requires inputs { bits_in bits.now.sizes.items ≤ length (gates_of circuit.old) }
    requires room { length (gates_of circuit.old) + 147254 * (occurrences (tm left.now) + occurrences (tm right.now)) < 2 ^ 31 }
    ensures asks { OnOk result (Asks circuit.old circuit.new
        (λ v. IsAtLeast (lists_for bits.now.sizes.items v) (tm left.now) (tm right.now))) }
    ensures few { OnOk result (length (gates_of circuit.new) + 261862
        ≤ length (gates_of circuit.old) + 147254 * (occurrences (tm left.now) + occurrences (tm right.now))) }
    ensures means { IfOk result (λ made. Means (gates_of circuit.new) made
        (λ v. nat_lt (constant_of (lists_for bits.now.sizes.items v) (tm right.now))
        (constant_of (lists_for bits.now.sizes.items v) (tm left.now)))) }
{
    let greater = require_constants(alloc, circuit, bits, left, right)?;
    require_factors(alloc, circuit, bits, metas, left, right)?;
    Ok(greater)
}

// A number of the left side has to be at least that of the right one.
fn require_part(
    alloc: Global,
    circuit: &mut Circuit,
    bits: &Bits,
    part: Part,
    left: &Term,
    right: &Term,
) -> Result<(), AllocError>
    requires plain { ArePlainSides (tm left.now) (tm right.now) }
    requires inputs { bits_in bits.now.sizes.items ≤ length (gates_of circuit.old) }
    requires room { length (gates_of circuit.old) + 2414 * (occurrences (tm left.now) + occurrences (tm right.now)) < 2 ^ 31 }
    ensures asks { OnOk result (Asks circuit.old circuit.new (λ v. number_at part (lists_for bits.now.sizes.items v) (tm right.now)
        ≤ number_at part (lists_for bits.now.sizes.items v) (tm left.now))) }
    ensures few { OnOk result (length (gates_of circuit.new) + 4300
        ≤ length (gates_of circuit.old) + 2414 * (occurrences (tm left.now) + occurrences (tm right.now))) }
{
    let first = number(alloc, circuit, bits, part, left)?;
    let second = number(alloc, circuit, bits, part, right)?;
    require_at_least(alloc, circuit, &first.wires, &second.wires)
}

// Requires of two constants that the left one is at least the right one; the wire is true exactly where it is greater.
fn require_constants(
    alloc: Global,
    circuit: &mut Circuit,
    bits: &Bits,
    left: &Term,
    right: &Term,
) -> Result<Wire, AllocError>
    requires plain { ArePlainSides (tm left.now) (tm right.now) }
    requires inputs { bits_in bits.now.sizes.items ≤ length (gates_of circuit.old) }
    requires room { length (gates_of circuit.old) + 2414 * (occurrences (tm left.now) + occurrences (tm right.now)) < 2 ^ 31 }
    ensures asks { OnOk result (Asks circuit.old circuit.new (λ v. constant_of (lists_for bits.now.sizes.items v) (tm right.now)
        ≤ constant_of (lists_for bits.now.sizes.items v) (tm left.now))) }
    ensures few { OnOk result (length (gates_of circuit.new) + 3862
        ≤ length (gates_of circuit.old) + 2414 * (occurrences (tm left.now) + occurrences (tm right.now))) }
    ensures means { IfOk result (λ made. Means (gates_of circuit.new) made
        (λ v. nat_lt (constant_of (lists_for bits.now.sizes.items v) (tm right.now))
        (constant_of (lists_for bits.now.sizes.items v) (tm left.now)))) }
{
    let first = number(alloc, circuit, bits, Part::Constant, left)?;
    let second = number(alloc, circuit, bits, Part::Constant, right)?;
    let other = at_least(alloc, circuit, &second.wires, &first.wires)?;
    require_at_least(alloc, circuit, &first.wires, &second.wires)?;
    Ok(circuit.not(other))
}

// The factor of each meta-variable on the left has to be at least that on the right. Those that do not stand on the
// right need nothing.
fn require_factors(
    alloc: Global,
    circuit: &mut Circuit,
    bits: &Bits,
    metas: usize,
    left: &Term,
    right: &Term,
) -> Result<(), AllocError>
    requires plain { ArePlainSides (tm left.now) (tm right.now) }
    requires inputs { bits_in bits.now.sizes.items ≤ length (gates_of circuit.old) }
    requires room { length (gates_of circuit.old)
        + 60 * (2414 * (occurrences (tm left.now) + occurrences (tm right.now)) - 4300) + 4300 < 2 ^ 31 }
    ensures asks { OnOk result (Asks circuit.old circuit.new (λ v. (z : ℕ) → z < metas
        → factor_of (lists_for bits.now.sizes.items v) z (tm right.now) ≤ factor_of (lists_for bits.now.sizes.items v) z (tm left.now))) }
    ensures few { OnOk result (length (gates_of circuit.new)
        ≤ length (gates_of circuit.old) + 60 * (2414 * (occurrences (tm left.now) + occurrences (tm right.now)) - 4300)) }
{
    for meta in 0..metas {
        if stands(meta, right) {
            require_part(alloc, circuit, bits, Part::Factor(meta), left, right)?;
        }
    }
    Ok(())
}
