//! The circuit of a flat set, with what is required of it. `circuit_of` is the main function.

ghost use Rattle.std.specs.Prelude.{◌≡◌, ℕ, ◌+◌, ◌*◌, ◌<◌, ◌≤◌, ◌^◌, [], All, IfOk, OnOk, length, map, nat_lt, sum_by};
ghost use Rattle.wh_terms.specs.Erase.{rewrite_rules};
ghost use Rattle.wh_terms.specs.Rules.{RewriteRule};
ghost use Rattle.wh_pairs.specs.PairData.{PairData, pair_data};
ghost use Rattle.wh_pairs.specs.Sets.{InSet};
ghost use Rattle.wh_reduction_pairs.specs.TaskView.{task_data};
ghost use Rattle.wh_poly_blocking.specs.Sizes.{bits_in};
ghost use Rattle.wh_circuit.specs.State.{gates_of, required_of};
ghost use Rattle.wh_poly_flat.specs.Flat.{IsListed, all_occurrences, most_in_all, occurrences_at, pair_occurrences, rule_occurrences_at};
ghost use Rattle.wh_poly_flat.specs.Dominance.{place_among};
ghost use Rattle.wh_find_flat.specs.Numbers.{AreInputs, Asks};
ghost use Rattle.wh_find_flat.specs.Ready.{AreGreater, IsFlatCircuit, IsReadyPair, IsReadyRule, PairHolds, RuleHolds, left_of, right_of};
ghost use Rattle.wh_find_flat.specs.Answers.{most_variables};
ghost use Rattle.wh_find_flat.specs.Lists.{lists_for};
ghost use Rattle.wh_circuit.specs.Gates.{Means};
ghost use Rattle.wh_poly_flat.specs.Worth.{IsAtLeast, constant_of};

use crate::bits::Bits;
use crate::sides::{require_pair, require_rule};
use std::alloc::{AllocError, Global};
use wh_circuit::{Circuit, Wire};
use wh_pairs::{Pair, call};
use wh_reduction_pairs::Task;
use wh_terms::Rule;

// A circuit of `count` inputs.
fn inputs(alloc: Global, count: usize) -> Result<Circuit, AllocError>
    requires { count < 2 ^ 31 }
    ensures inputs { IfOk result (λ made. AreInputs count (gates_of made)) }
    ensures count { IfOk result (λ made. length (gates_of made) ≡ count) }
    ensures required { IfOk result (λ made. required_of made ≡ []) }
{
    let mut circuit = Circuit::new(alloc);
    for _ in 0..count {
        circuit.input()?;
    }
    Ok(circuit)
}

// The place of a symbol among the marked ones, or the number of these where it is no marked one.
fn place(marked: &[u32], symbol: u32) -> usize
    ensures { result ≡ place_among marked.now symbol }
{
    for (place, mark) in marked.iter().enumerate() {
        if *mark == symbol {
            return place;
        }
    }
    marked.len()
}

// The left side of each rule of the list has to be at least the right one.
fn require_rules(
    alloc: Global,
    circuit: &mut Circuit,
    bits: &Bits,
    rules: &[Rule],
    listed: &[u32],
) -> Result<(), AllocError>
    requires within { All (λ n. n < length rules.now) listed.now }
    requires ready { (r : RewriteRule) → IsListed (rewrite_rules rules.now) listed.now r → IsReadyRule r }
    requires inputs { bits_in bits.now.sizes.items ≤ length (gates_of circuit.old) }
    requires room { length (gates_of circuit.old) + 147254 * sum_by (rule_occurrences_at (rewrite_rules rules.now)) listed.now < 2 ^ 31 }
    ensures asks { OnOk result (Asks circuit.old circuit.new
        (λ v. (k : ℕ) → k < length listed.now → RuleHolds bits.now.sizes.items (rewrite_rules rules.now) listed.now v k)) }
    ensures few { OnOk result (length (gates_of circuit.new) + 261862 * length listed.now
        ≤ length (gates_of circuit.old) + 147254 * sum_by (rule_occurrences_at (rewrite_rules rules.now)) listed.now) }
{
    for number in listed {
        let rule = &rules[*number as usize];
        let metas = rule.metas.as_slice().len();
        require_rule(alloc, circuit, bits, metas, &rule.left, &rule.right)?;
    }
    Ok(())
}

/// A set of pairs whose marked symbols are numbered.
#[derive(Clone, Copy)]
struct Calls<'a> {
    pairs: &'a [Pair],
    set: &'a [u32],
    marked: &'a [u32],
    first: u32,
}

// Requires of each pair of the set that its left side is at least its right one. The wires, one for each pair, are true
// exactly where the constant on the left is greater.
fn require_pairs<'a>(
    alloc: Global,
    circuit: &mut Circuit,
    bits: &Bits,
    calls: &Calls<'a>,
) -> Result<Vec<Wire>, AllocError>
    requires within { All (λ n. n < length calls.now.pairs.now) calls.now.set.now }
    requires ready { (p : PairData) → InSet (map pair_data calls.now.pairs.now) calls.now.set.now p
        → IsReadyPair calls.now.first calls.now.marked.now p }
    requires numbers { calls.now.first + length calls.now.marked.now < 2 ^ 32 }
    requires inputs { bits_in bits.now.sizes.items ≤ length (gates_of circuit.old) }
    requires room { length (gates_of circuit.old)
        + 147254 * sum_by (occurrences_at (map pair_data calls.now.pairs.now)) calls.now.set.now < 2 ^ 31 }
    ensures asks { OnOk result (Asks circuit.old circuit.new (λ v. (k : ℕ) → k < length calls.now.set.now
        → PairHolds bits.now.sizes.items calls.now.first calls.now.marked.now (map pair_data calls.now.pairs.now) calls.now.set.now v k)) }
    ensures few { OnOk result (length (gates_of circuit.new) + 261862 * length calls.now.set.now
        ≤ length (gates_of circuit.old) + 147254 * sum_by (occurrences_at (map pair_data calls.now.pairs.now)) calls.now.set.now) }
    ensures greater { IfOk result (λ made. AreGreater bits.now.sizes.items calls.now.first calls.now.marked.now
        (map pair_data calls.now.pairs.now) calls.now.set.now (gates_of circuit.new) made.items) }
{
    let mut greater = Vec::new(alloc);
    for number in calls.set {
        let pair = &calls.pairs[*number as usize];
        let wire = require_call(alloc, circuit, bits, calls, pair)?;
        greater.push(wire)?;
    }
    Ok(greater)
}

// Requires of a pair that its left side is at least its right one. The wire is true exactly where the constant on the
// left is greater.
fn require_call<'a>(
    alloc: Global,
    circuit: &mut Circuit,
    bits: &Bits,
    calls: &Calls<'a>,
    pair: &Pair,
) -> Result<Wire, AllocError>
    requires ready { IsReadyPair calls.now.first calls.now.marked.now (pair_data pair.now) }
    requires numbers { calls.now.first + length calls.now.marked.now < 2 ^ 32 }
    requires inputs { bits_in bits.now.sizes.items ≤ length (gates_of circuit.old) }
    requires room { length (gates_of circuit.old) + 147254 * pair_occurrences (pair_data pair.now) < 2 ^ 31 }
    ensures asks { OnOk result (Asks circuit.old circuit.new (λ v. IsAtLeast (lists_for bits.now.sizes.items v)
        (left_of calls.now.first calls.now.marked.now (pair_data pair.now))
        (right_of calls.now.first calls.now.marked.now (pair_data pair.now)))) }
    ensures few { OnOk result (length (gates_of circuit.new) + 261862
        ≤ length (gates_of circuit.old) + 147254 * pair_occurrences (pair_data pair.now)) }
    ensures means { IfOk result (λ made. Means (gates_of circuit.new) made (λ v. nat_lt
        (constant_of (lists_for bits.now.sizes.items v) (right_of calls.now.first calls.now.marked.now (pair_data pair.now)))
        (constant_of (lists_for bits.now.sizes.items v) (left_of calls.now.first calls.now.marked.now (pair_data pair.now))))) }
{
    let left = call(alloc, calls.number(pair.left_fun), &pair.left)?;
    let right = call(alloc, calls.number(pair.right_fun), &pair.right)?;
    let metas = pair.metas.as_slice().len();
    require_pair(alloc, circuit, bits, metas, &left, &right)
}

impl<'a> Calls<'a> {
    // The number of the marked symbol of a symbol.
    fn number(&self, symbol: u32) -> u32
        requires { self.now.first + length self.now.marked.now < 2 ^ 32 }
        ensures { result ≡ self.now.first + place_among self.now.marked.now symbol }
    {
        self.first + place(self.marked, symbol) as u32
    }
}

/// The circuit of a flat set: its first variables are the bits of all coefficients, and what is required of it is that
/// these let a pair of the set go.
pub fn circuit_of<'a>(
    alloc: Global,
    task: &Task<'a>,
    marked: &[u32],
    bits: &Bits,
) -> Result<Circuit, AllocError>
    requires within { All (λ n. n < length task.now.pairs.now) task.now.set.now }
    requires listed { All (λ n. n < length (task_data task.now).rules) task.now.covered.now }
    requires rules { (r : RewriteRule) → IsListed (task_data task.now).rules task.now.covered.now r → IsReadyRule r }
    requires pairs { (p : PairData) → InSet (task_data task.now).pairs (task_data task.now).set p
        → IsReadyPair (length (task_data task.now).symbols.funs) marked.now p }
    requires some { 1 ≤ length task.now.set.now }
    requires numbers { length marked.now ≤ 1024 }
    requires bits { bits_in bits.now.sizes.items ≤ 659456 }
    requires few { all_occurrences (task_data task.now) ≤ most_in_all }
    ensures circuit { IfOk result (IsFlatCircuit bits.now.sizes.items (task_data task.now) marked.now (bits_in bits.now.sizes.items)) }
    ensures few { IfOk result (λ made. length (gates_of made)
        ≤ most_variables task.now.covered.now (all_occurrences (task_data task.now))) }
{
    task.system.is_well_made();
    let mut circuit = inputs(alloc, bits.count())?;
    require_rules(alloc, &mut circuit, bits, task.system.rules(), task.covered)?;
    let calls = Calls {
        pairs: task.pairs,
        set: task.set,
        marked,
        first: task.system.fun_names().len() as u32,
    };
    let greater = require_pairs(alloc, &mut circuit, bits, &calls)?;
    let some = circuit.or(&greater)?;
    circuit.require(some)?;
    Ok(circuit)
}
