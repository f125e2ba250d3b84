//! The search for interpretations that let a pair of a set go, by all its means in turn: `interpretation_of` climbs,
//! asks formulas for flat sets where the climb finds none, and then starts the wider search.

ghost use Rattle.std.specs.Prelude.{◌≡◌, false, ◌+◌, ◌*◌, ◌<◌, ◌≤◌, ◌↔◌, All, IfOk, IfSome, IsTrue, MatchOption, None, length};
ghost use Rattle.wh_types.specs.Limits.{most_pairs};
ghost use Rattle.wh_pairs.specs.SystemPairs.{HasPairs};
ghost use Rattle.wh_pairs.specs.Views.{pairs_data};
ghost use Rattle.wh_system.specs.SystemView.{system_data};
ghost use Rattle.wh_cert.specs.Said.{said_node};
ghost use Rattle.wh_proof.specs.Looked.{poly_task};
ghost use Rattle.wh_poly_guesses.specs.Found.{IsInterpretation};
ghost use Rattle.wh_poly_flat.specs.Flat.{IsFlat};
ghost use Rattle.wh_reduction_pairs.specs.TaskData.{whole_task};
ghost use Rattle.wh_usable_rules.specs.Least.{IsLeastClosed};
ghost use Rattle.wh_interpreting.specs.Interpreted.{Interprets, IsInterpreted};
ghost use Rattle.wh_interpreting.specs.Lists.{IsAsked, IsListFor, ListsEnd, most_covered};

use std::alloc::{AllocError, Global};
use wh_cert::Node;
use wh_find_flat::{find_by_circuit, is_flat};
use wh_find_poly::find_interpretation;
use wh_pairs::{PairList, PairSet, marked_symbols};
use wh_poly_climb::{Climbed, climb};
use wh_reduction_pairs::{Task, all_rules};
use wh_sat::Search;
use wh_system::System;
use wh_types::Numbers;
use wh_usable_rules::usable_rules;

// The formula over all rules is made for systems with at most this number of symbols: the solver needs long for the
// formulas of larger ones.
const MOST_SYMBOLS: usize = 16;

// How many times the sides of a rule or pair are evaluated in the climb before the formulas.
const EVALUATIONS: u64 = 30_000;

// The formula over the usable rules is made where these and the pairs of the set are at most this number together.
const MOST_COVERED: usize = 40;

// The search by the formula over the usable rules is given up with this number of learnt clauses, or with a tenth of the
// whole budget where that is more: most sets of programs need fewer than a hundred, and the wider search goes on.
const MOST_LEARNT: u64 = 1_000;

const SHARE: u64 = 10;

/// Interpretations under which no rule that is to be covered and no pair of the set grows and some pair shrinks.
///
/// A set is first climbed for where some formula can be made for it. Where its usable rules are not all rules, but few,
/// and it is flat with them, a formula over these rules comes first; a node that is found by it lists them. A flat set
/// of a system with few symbols is then put into one formula over all rules, which settles it or is given up with
/// `budget` learnt clauses. A set that is left open, and any other one, goes through `find_interpretation` with the
/// same budget.
///
/// `Nothing` comes only where no interpretation lets a pair go that covers all rules, and `Spent` only with `budget`
/// clauses of the wider search. Both say what became of the usable rules: there was no formula over them, and why; it
/// has no model; or it was given up, with a number of clauses that grows with `budget`.
#[tactic(auto, using(crate::proofs::InterpretedLemmas::without_list, crate::proofs::InterpretedLemmas::found_by_formula, crate::proofs::InterpretedLemmas::none_by_formula, crate::proofs::InterpretedLemmas::by_search_if))]
pub fn interpretation_of(
    alloc: Global,
    system: &System,
    pairs: &PairList,
    set: &PairSet,
    budget: u64,
) -> Result<Search<Node>, AllocError>
    requires few { length pairs.now ≤ most_pairs }
    requires whole { HasPairs (system_data system.now) (pairs_data pairs.now) }
    requires set { All (λ n. n < length pairs.now) set.now }
    requires some { 1 ≤ length set.now }
    ensures { IfOk result (IsInterpreted (system_data system.now) (pairs_data pairs.now) set.now budget) }
{
    let usable = flat_list(alloc, system, pairs, set)?;
    let small = is_small(alloc, system, pairs, set)?;
    if usable.is_some() || small {
        if let Some(node) = climbed(alloc, system, pairs, set)? {
            return Ok(Search::Found(node));
        }
    }
    if let Some(node) = by_usable_rules(alloc, system, pairs, set, usable, budget)? {
        return Ok(Search::Found(node));
    }
    if small {
        match find_by_circuit(alloc, system, pairs, set, None, budget)? {
            Search::Found(node) => return Ok(Search::Found(node)),
            Search::Nothing => return Ok(Search::Nothing),
            Search::Spent(_) => {}
        }
    }
    find_interpretation(alloc, system, pairs, set, budget)
}

// The usable rules of the set, where they are not all rules, but few, and the set is flat with them.
fn flat_list(
    alloc: Global,
    system: &System,
    pairs: &PairList,
    set: &PairSet,
) -> Result<Option<Numbers>, AllocError>
    requires set { All (λ n. n < length pairs.now) set.now }
    ensures { IfOk result (IsListFor (system_data system.now) (pairs_data pairs.now) set.now) }
{
    match usable_rules(alloc, system, pairs, set)? {
        Some(listed) => flat_with(alloc, system, pairs, set, listed),
        None => Ok(None),
    }
}

// This least list, where it is short and the set is flat with it.
fn flat_with(
    alloc: Global,
    system: &System,
    pairs: &PairList,
    set: &PairSet,
    listed: Numbers,
) -> Result<Option<Numbers>, AllocError>
    requires set { All (λ n. n < length pairs.now) set.now }
    requires least { IsLeastClosed (whole_task (system_data system.now).symbols (system_data system.now).rules
        (pairs_data pairs.now) set.now) listed }
    ensures { IfOk result (IsListFor (system_data system.now) (pairs_data pairs.now) set.now) }
{
    if !is_short(listed.as_slice(), set.as_slice()) {
        return Ok(None);
    }
    let usable = Some(listed);
    if is_flat(alloc, system, pairs, set, &usable)? {
        Ok(usable)
    } else {
        Ok(None)
    }
}

// Whether few rules and pairs are to be covered.
fn is_short(listed: &[u32], set: &[u32]) -> bool
    ensures { result ≡ false → most_covered < length listed.now + length set.now }
{
    listed.len() <= MOST_COVERED && set.len() <= MOST_COVERED - listed.len()
}

// Whether the formula over all rules is made: the set is flat with them, and the system has few symbols.
#[tactic(auto, using(crate::proofs::InterpretedLemmas::small_if))]
fn is_small(
    alloc: Global,
    system: &System,
    pairs: &PairList,
    set: &PairSet,
) -> Result<bool, AllocError>
    requires set { All (λ n. n < length pairs.now) set.now }
    ensures { IfOk result (λ small. IsTrue small → IsFlat (poly_task (system_data system.now) (pairs_data pairs.now) set.now None)) }
{
    if system.signature().funs.as_slice().len() > MOST_SYMBOLS {
        return Ok(false);
    }
    is_flat(alloc, system, pairs, set, &None)
}

// A node that lists these rules, where there is a list and the formula over its rules gives one.
fn by_usable_rules(
    alloc: Global,
    system: &System,
    pairs: &PairList,
    set: &PairSet,
    usable: Option<Numbers>,
    budget: u64,
) -> Result<Option<Node>, AllocError>
    requires few { length pairs.now ≤ most_pairs }
    requires whole { HasPairs (system_data system.now) (pairs_data pairs.now) }
    requires set { All (λ n. n < length pairs.now) set.now }
    requires some { 1 ≤ length set.now }
    requires usable { IsListFor (system_data system.now) (pairs_data pairs.now) set.now usable }
    ensures { IfOk result (λ found. MatchOption found (ListsEnd (system_data system.now) (pairs_data pairs.now) set.now budget)
        (λ node. Interprets (system_data system.now) (pairs_data pairs.now) set.now (said_node node))) }
{
    match usable {
        Some(listed) => by_list(alloc, system, pairs, set, listed, budget),
        None => Ok(None),
    }
}

// A node that lists these rules, where the formula over them gives one.
fn by_list(
    alloc: Global,
    system: &System,
    pairs: &PairList,
    set: &PairSet,
    listed: Numbers,
    budget: u64,
) -> Result<Option<Node>, AllocError>
    requires few { length pairs.now ≤ most_pairs }
    requires whole { HasPairs (system_data system.now) (pairs_data pairs.now) }
    requires set { All (λ n. n < length pairs.now) set.now }
    requires some { 1 ≤ length set.now }
    requires listed { IsAsked (system_data system.now) (pairs_data pairs.now) set.now listed }
    ensures { IfOk result (λ found. MatchOption found (ListsEnd (system_data system.now) (pairs_data pairs.now) set.now budget)
        (λ node. Interprets (system_data system.now) (pairs_data pairs.now) set.now (said_node node))) }
{
    let most = most_learnt(budget);
    match find_by_circuit(alloc, system, pairs, set, Some(listed), most)? {
        Search::Found(node) => Ok(Some(node)),
        Search::Nothing => Ok(None),
        Search::Spent(_learnt) => Ok(None),
    }
}

// How many clauses the search over the usable rules may learn.
fn most_learnt(budget: u64) -> u64
    ensures less { result ≤ budget }
    ensures share { budget < 10 * (result + 1) }
{
    let share = budget / SHARE;
    if share > MOST_LEARNT {
        share
    } else {
        budget.min(MOST_LEARNT)
    }
}

// An interpretation that a climb finds, if it finds one.
fn climbed(
    alloc: Global,
    system: &System,
    pairs: &PairList,
    set: &PairSet,
) -> Result<Option<Node>, AllocError>
    requires few { length pairs.now ≤ most_pairs }
    requires whole { HasPairs (system_data system.now) (pairs_data pairs.now) }
    requires set { All (λ n. n < length pairs.now) set.now }
    ensures { IfOk result (λ found. IfSome found (λ node. IsInterpretation (system_data system.now) (pairs_data pairs.now) set.now
        (said_node node))) }
{
    let covered = all_rules(alloc, system)?;
    let task = Task {
        system,
        pairs: pairs.as_slice(),
        set: set.as_slice(),
        covered: &covered,
    };
    system.is_well_made();
    let marked = marked_symbols(alloc, pairs, set)?;
    match climb(alloc, &task, &marked, EVALUATIONS)? {
        Climbed::Found(node) => Ok(Some(node)),
        Climbed::Best(_) => Ok(None),
    }
}
