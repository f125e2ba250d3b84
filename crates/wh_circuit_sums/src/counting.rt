//! Counting true wires: `exactly_one` makes the wire that says that one alone is.

ghost use Rattle.std.specs.Prelude.{◌≡◌, ℕ, ◌+◌, ◌*◌, ◌<◌, ◌^◌, Bool, IfOk, OnErr, OnOk, length, nat_eq};
ghost use Rattle.wh_circuit.specs.Gates.{AreWires, IsWire, Means};
ghost use Rattle.wh_circuit.specs.State.{Grows, Unchanged, gates_of};
ghost use Rattle.wh_circuit_sums.specs.Steps.{Counts};
ghost use Rattle.wh_circuit.specs.Values.{bit, true_count};
ghost use Rattle.wh_sat.specs.Solving.{literal_true};

use crate::count::Count;
use std::alloc::AllocError;
use wh_circuit::Circuit;
use wh_circuit_gates::Wire;

/// True exactly where one of the wires is, and no other; of none it is false. At most three variables join for each
/// wire, and two more.
pub fn exactly_one(circuit: &mut Circuit, of: &[Wire]) -> Result<Wire, AllocError>
    requires room { length (gates_of circuit.old) + (3 * length of.now + 2) < 2 ^ 31 }
    requires own { AreWires (gates_of circuit.old) of.now }
    ensures grows { OnOk result (Grows (3 * length of.now + 2) circuit.old circuit.new) }
    ensures means { IfOk result (λ a. Means (gates_of circuit.new) a (λ v. nat_eq (true_count v of.now) 1)) }
    ensures err { OnErr result (Unchanged circuit.old circuit.new) }
{
    let mark = circuit.mark();
    match one_of(circuit, of) {
        Ok(made) => Ok(made),
        Err(error) => {
            circuit.restore(mark);
            Err(error)
        }
    }
}

// Compares the number of true wires with 1 as `exactly_one` does. Where memory is wanting, gates may be left that
// `exactly_one` takes back.
fn one_of(circuit: &mut Circuit, of: &[Wire]) -> Result<Wire, AllocError>
    requires room { length (gates_of circuit.old) + (3 * length of.now + 2) < 2 ^ 31 }
    requires own { AreWires (gates_of circuit.old) of.now }
    ensures grows { Grows (3 * length of.now + 2) circuit.old circuit.new }
    ensures means { IfOk result (λ a. Means (gates_of circuit.new) a (λ v. nat_eq (true_count v of.now) 1)) }
{
    let count = count(circuit, of)?;
    let few = circuit.not(count.more);
    circuit.both(count.some, few)
}

// How many of the wires are true.
fn count(circuit: &mut Circuit, of: &[Wire]) -> Result<Count, AllocError>
    requires room { length (gates_of circuit.old) + (3 * length of.now + 1) < 2 ^ 31 }
    requires own { AreWires (gates_of circuit.old) of.now }
    ensures grows { Grows (3 * length of.now + 1) circuit.old circuit.new }
    ensures means { IfOk result (λ count. Counts (gates_of circuit.new) count (λ v. true_count v of.now)) }
{
    let none = circuit.falsity()?;
    let mut count = Count {
        some: none,
        more: none,
    };
    for wire in of {
        count = counted(circuit, count, *wire)?;
    }
    Ok(count)
}

// One wire more is counted.
fn counted(circuit: &mut Circuit, count: Count, wire: Wire) -> Result<Count, AllocError>
    requires room { length (gates_of circuit.old) + 3 < 2 ^ 31 }
    requires some { IsWire (gates_of circuit.old) count.some }
    requires more { IsWire (gates_of circuit.old) count.more }
    requires own { IsWire (gates_of circuit.old) wire }
    ensures grows { Grows 3 circuit.old circuit.new }
    ensures means { IfOk result (λ made. (many : (ℕ → Bool) → ℕ) → Counts (gates_of circuit.old) count many
        → Counts (gates_of circuit.new) made (λ v. bit (literal_true v wire) + many v)) }
{
    let again = circuit.both(count.some, wire)?;
    let more = circuit.either(count.more, again)?;
    let some = circuit.either(count.some, wire)?;
    Ok(Count { some, more })
}
