//! The search for interpretations of a flat set by one formula. `find_by_circuit` is the main function.

ghost use Rattle.std.specs.Prelude.{◌≡◌, ◌↔◌, ◌≤◌, ◌<◌, All, IfOk, IsTrue, length, map};
ghost use Rattle.wh_types.specs.Limits.{most_pairs};
ghost use Rattle.wh_system.specs.SystemView.{system_data};
ghost use Rattle.wh_pairs.specs.Marked.{AreMarked};
ghost use Rattle.wh_pairs.specs.SystemPairs.{HasPairs};
ghost use Rattle.wh_pairs.specs.Views.{pairs_data};
ghost use Rattle.wh_reduction_pairs.specs.TaskView.{task_data};
ghost use Rattle.wh_polycheck.specs.Covering.{IsTypedTask};
ghost use Rattle.wh_polycheck.specs.Readings.{ReadingsData};
ghost use Rattle.wh_proof.specs.Looked.{covered_rules, poly_task};
ghost use Rattle.wh_cert.specs.Said.{said_node};
ghost use Rattle.wh_poly_space.specs.Space.{space_of};
ghost use Rattle.wh_poly_guesses.specs.Coefficients.{scopes_of};
ghost use Rattle.wh_poly_guesses.specs.Conditions.{LetsGo};
ghost use Rattle.wh_poly_guesses.specs.Found.{IsInterpretationOver};
ghost use Rattle.wh_poly_guesses.specs.Weighing.{AreRulesOf};
ghost use Rattle.wh_poly_blocking.specs.Sizes.{value_of};
ghost use Rattle.wh_poly_blocking.specs.Tried.{AreWritten};
ghost use Rattle.wh_poly_flat.specs.Flat.{IsFlat};
ghost use Rattle.wh_find_flat.specs.Answers.{IsClosedList, IsFlatAnswer};

use crate::bits::Bits;
use crate::formula::circuit_of;
use std::alloc::{AllocError, Global};
use wh_cert::Node;
use wh_pairs::{PairList, PairSet, marked_symbols};
use wh_poly_blocking::{first_bits, lists_by};
use wh_poly_flat::flat;
use wh_poly_guesses::{Weighing, guess_by, listing_node_of_guess, sizes_of};
use wh_reduction_pairs::{Task, all_rules};
use wh_sat::{Outcome, Search, solve};
use wh_system::System;
use wh_types::Numbers;

/// Interpretations under which no rule of the list, or no rule at all where there is no list, and no pair of a flat set
/// grows and some pair shrinks, by one formula on the bits of their coefficients (Fuhs, Giesl, Middeldorp,
/// Schneider-Kamp, Thiemann and Zankl 2007; that flat sides need no more is ours).
///
/// `Found` drops every pair that is covered strictly, and its node has the list. `Nothing` comes only where no
/// interpretation of the space lets a pair go, and `Spent` only with `budget` clauses that are learnt from the formula.
pub fn find_by_circuit(
    alloc: Global,
    system: &System,
    pairs: &PairList,
    set: &PairSet,
    usable: Option<Numbers>,
    budget: u64,
) -> Result<Search<Node>, AllocError>
    requires few { length pairs.now ≤ most_pairs }
    requires whole { HasPairs (system_data system.now) (pairs_data pairs.now) }
    requires set { All (λ n. n < length pairs.now) set.now }
    requires some { 1 ≤ length set.now }
    requires usable { IsClosedList (system_data system.now) (pairs_data pairs.now) set.now usable }
    requires flat { IsFlat (poly_task (system_data system.now) (pairs_data pairs.now) set.now usable) }
    ensures { IfOk result (IsFlatAnswer (system_data system.now) (pairs_data pairs.now) set.now usable budget) }
{
    let covered = rules_of(alloc, system, &usable)?;
    let task = Task {
        system,
        pairs: pairs.as_slice(),
        set: set.as_slice(),
        covered: &covered,
    };
    system.is_well_made();
    let marked = marked_symbols(alloc, pairs, set)?;
    find_for(alloc, &task, usable, &marked, budget)
}

/// Whether the set is flat where the rules of the list, or all rules where there is no list, are to be covered.
pub fn is_flat(
    alloc: Global,
    system: &System,
    pairs: &PairList,
    set: &PairSet,
    usable: &Option<Numbers>,
) -> Result<bool, AllocError>
    requires set { All (λ n. n < length pairs.now) set.now }
    requires usable { IsClosedList (system_data system.now) (pairs_data pairs.now) set.now usable.now }
    ensures { IfOk result (λ flat. IsTrue flat ↔ IsFlat (poly_task (system_data system.now) (pairs_data pairs.now) set.now usable.now)) }
{
    let covered = rules_of(alloc, system, usable)?;
    let task = Task {
        system,
        pairs: pairs.as_slice(),
        set: set.as_slice(),
        covered: &covered,
    };
    Ok(flat(&task))
}

// The rules of the list, or all rules where there is none.
fn rules_of(
    alloc: Global,
    system: &System,
    usable: &Option<Numbers>,
) -> Result<Vec<u32>, AllocError>
    ensures { IfOk result (λ rules. rules.items ≡ covered_rules usable.now (length (system_data system.now).rules)) }
{
    match usable {
        Some(listed) => copied(alloc, listed.as_slice()),
        None => all_rules(alloc, system),
    }
}

// A copy of the numbers.
fn copied(alloc: Global, numbers: &[u32]) -> Result<Vec<u32>, AllocError>
    ensures { IfOk result (λ made. made.items ≡ numbers.now) }
{
    Vec::from_slice(alloc, numbers)
}

// No set has more marked symbols, and no symbols have more bits of coefficients; what passes these bounds all the same
// counts as want of memory.
const MOST_MARKED: usize = 1024;

const MOST_BITS: usize = 659_456;

// Searches for the task with the marked symbols of its set.
fn find_for<'a>(
    alloc: Global,
    task: &Task<'a>,
    usable: Option<Numbers>,
    marked: &[u32],
    budget: u64,
) -> Result<Search<Node>, AllocError>
    requires few { length task.now.pairs.now ≤ most_pairs }
    requires task { IsTypedTask (task_data task.now) }
    requires usable { AreRulesOf task.now usable }
    requires marked { AreMarked (task_data task.now).pairs (task_data task.now).set marked.now }
    requires some { 1 ≤ length task.now.set.now }
    requires flat { IsFlat (task_data task.now) }
    ensures { IfOk result (IsFlatAnswer (system_data task.now.system.now) (task_data task.now).pairs
        (task_data task.now).set usable budget) }
{
    let bits = bits_of(alloc, task, marked)?;
    if marked.len() > MOST_MARKED || bits.count() > MOST_BITS {
        return Err(AllocError);
    }
    task.system.is_well_made();
    let circuit = circuit_of(alloc, task, marked, &bits)?;
    let outcome = solve(alloc, circuit.formula(), budget)?;
    match outcome {
        Outcome::Sat(values) => {
            let node = node_by(alloc, task, usable, marked, &bits, &values)?;
            Ok(Search::Found(node))
        }
        Outcome::Unsat => Ok(Search::Nothing),
        Outcome::Spent(learnt) => Ok(Search::Spent(learnt)),
    }
}

// The bits of all coefficients.
fn bits_of<'a>(alloc: Global, task: &Task<'a>, marked: &[u32]) -> Result<Bits, AllocError>
    ensures { IfOk result (λ bits. bits.sizes.items ≡ map (λ Γ. length (space_of Γ))
        (scopes_of (task_data task.now) marked.now)) }
{
    let sizes = sizes_of(alloc, task, marked)?;
    let firsts = first_bits(alloc, &sizes)?;
    Ok(Bits { sizes, firsts })
}

// The node of the interpretations that bits with these values write, which let a pair go.
fn node_by<'a>(
    alloc: Global,
    task: &Task<'a>,
    usable: Option<Numbers>,
    marked: &[u32],
    bits: &Bits,
    values: &[bool],
) -> Result<Node, AllocError>
    requires few { length task.now.pairs.now ≤ most_pairs }
    requires task { IsTypedTask (task_data task.now) }
    requires usable { AreRulesOf task.now usable }
    requires marked { AreMarked (task_data task.now).pairs (task_data task.now).set marked.now }
    requires sizes { bits.now.sizes.items ≡ map (λ Γ. length (space_of Γ))
        (scopes_of (task_data task.now) marked.now) }
    requires lets_go { (R : ReadingsData) → AreWritten (task_data task.now) marked.now (value_of values.now) R
        → LetsGo (task_data task.now) R }
    ensures { IfOk result (λ node. IsInterpretationOver (system_data task.now.system.now) (task_data task.now).pairs
        (task_data task.now).set usable (said_node node)) }
{
    let lists = lists_by(alloc, values, &bits.sizes)?;
    let guess = guess_by(alloc, task, marked, &lists)?;
    match listing_node_of_guess(alloc, task, usable, &guess)? {
        Weighing::Found(node) => Ok(node),
        Weighing::Failing(_) => unreachable!(),
    }
}
