//! The search for interpretations of a set: a climb, then ranges of coefficients, and then guesses by a solver.
//! `find_interpretation` is the main function.

ghost use Rattle.std.specs.Prelude.{◌<◌, ◌≤◌, All, IfOk, length};
ghost use Rattle.wh_types.specs.Limits.{most_pairs};
ghost use Rattle.wh_pairs.specs.SystemPairs.{HasPairs};
ghost use Rattle.wh_pairs.specs.Views.{pairs_data};
ghost use Rattle.wh_system.specs.SystemView.{system_data};
ghost use Rattle.wh_pairs.specs.Marked.{AreMarked};
ghost use Rattle.wh_reduction_pairs.specs.TaskView.{task_data};
ghost use Rattle.wh_poly_guesses.specs.Tasks.{IsTaskOf};
ghost use Rattle.wh_poly_blocking.specs.Answers.{IsAnswer};

use std::alloc::{AllocError, Global};
use wh_cert::Node;
use wh_pairs::{PairList, PairSet, marked_symbols};
use wh_poly_blocking::find_by_guesses;
use wh_poly_climb::{Climbed, climb};
use wh_poly_ranges::has_none;
use wh_reduction_pairs::{Task, all_rules};
use wh_sat::Search;
use wh_system::System;

// How many times the sides of a rule or pair are evaluated in the climb: `EVALUATIONS`, and `EVALUATIONS_FOR_EACH` for
// each rule and pair.
const EVALUATIONS: u64 = 30_000;

const EVALUATIONS_FOR_EACH: u64 = 50;

// How much work the search in ranges may do: `WORK`, and `WORK_FOR_EACH_TWO` for each two rules or pairs, since each
// pair is asked to be covered strictly and that may go through all; but at most `MOST_WORK`.
const WORK: u64 = 30_000;

const WORK_FOR_EACH_TWO: u64 = 15;

const MOST_WORK: u64 = 6_000_000;

/// Interpretations under which no rule and no pair of the set grows and some pair shrinks (the reduction pair processor
/// of Kop 2012 with the polynomials of Fuhs and Kop 2012; the search is ours).
///
/// `Found` drops every pair that is covered strictly. `Nothing` comes only where no interpretation of the space lets a
/// pair go, and `Spent` only with `budget` clauses, each of which shuts out a guess under which a condition fails, or
/// is learnt.
pub fn find_interpretation(
    alloc: Global,
    system: &System,
    pairs: &PairList,
    set: &PairSet,
    budget: u64,
) -> Result<Search<Node>, AllocError>
    requires few { length pairs.now ≤ most_pairs }
    requires whole { HasPairs (system_data system.now) (pairs_data pairs.now) }
    requires set { All (λ n. n < length pairs.now) set.now }
    ensures { IfOk result (IsAnswer (system_data system.now) (pairs_data pairs.now) set.now budget) }
{
    let covered = all_rules(alloc, system)?;
    let task = Task {
        system,
        pairs: pairs.as_slice(),
        set: set.as_slice(),
        covered: &covered,
    };
    system.is_well_made();
    let marked = marked_symbols(alloc, pairs, set)?;
    find_for(alloc, &task, &marked, budget)
}

// Searches with the marked symbols of the set: a climb, then ranges of coefficients, and then guesses, of which the
// first is the best one of the climb.
fn find_for<'a>(
    alloc: Global,
    task: &Task<'a>,
    marked: &'a [u32],
    budget: u64,
) -> Result<Search<Node>, AllocError>
    requires few { length task.now.pairs.now ≤ most_pairs }
    requires task { IsTaskOf task.now }
    requires marked { AreMarked (task_data task.now).pairs (task_data task.now).set marked.now }
    ensures { IfOk result (IsAnswer (system_data task.now.system.now) (task_data task.now).pairs (task_data task.now).set budget) }
{
    match climb(alloc, task, marked, evaluations(task))? {
        Climbed::Found(node) => Ok(Search::Found(node)),
        Climbed::Best(lists) => {
            if has_none(alloc, task, marked, work(task))? {
                return Ok(Search::Nothing);
            }
            find_by_guesses(alloc, task, marked, &lists, budget)
        }
    }
}

// How many evaluations the climb has.
fn evaluations<'a>(task: &Task<'a>) -> u64 {
    let more = EVALUATIONS_FOR_EACH.saturating_mul(conditions(task));
    EVALUATIONS.saturating_add(more)
}

// How much work the search in ranges has.
fn work<'a>(task: &Task<'a>) -> u64 {
    let conditions = conditions(task);
    let more = WORK_FOR_EACH_TWO.saturating_mul(conditions.saturating_mul(conditions));
    WORK.saturating_add(more).min(MOST_WORK)
}

// How many rules are to be covered, and how many pairs there are.
fn conditions<'a>(task: &Task<'a>) -> u64 {
    task.covered.len() as u64 + task.set.len() as u64
}
