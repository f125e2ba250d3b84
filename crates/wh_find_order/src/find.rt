//! The search for path orders of a set: a circuit first, and then guesses by a solver and by chance. `find_order` is
//! the main function.

ghost use Rattle.std.specs.Prelude.{◌<◌, ◌≤◌, All, IfOk, length};
ghost use Rattle.wh_types.specs.Limits.{most_pairs};
ghost use Rattle.wh_pairs.specs.SystemPairs.{HasPairs};
ghost use Rattle.wh_pairs.specs.Views.{pairs_data};
ghost use Rattle.wh_pairs.specs.Marked.{AreMarked};
ghost use Rattle.wh_reduction_pairs.specs.TaskView.{task_data};
ghost use Rattle.wh_system.specs.SystemView.{system_data};
ghost use Rattle.wh_poly_guesses.specs.Tasks.{IsTaskOf};
ghost use Rattle.wh_order_space.specs.Circuited.{IsCircuited};
ghost use Rattle.wh_find_order.specs.Answers.{IsAnswer};
ghost use Rattle.wh_find_order.specs.Encodings.{IsEncoding, system_in, task_in};

use crate::blocking::search_from;
use crate::encoding::{Encoding, encoding_of};
use std::alloc::{AllocError, Global};
use wh_cert::OrderNode;
use wh_order_space::{Circuited, orders_by_circuit};
use wh_pairs::{PairList, PairSet, marked_symbols};
use wh_reduction_pairs::{Task, all_rules};
use wh_sat::Search;
use wh_sat_trail::Clauses;
use wh_system::System;

// The greatest number of clauses that the circuit's solver may learn before it is given up.
const MOST_LEARNT: u64 = 50_000;

/// Argument filters, precedences and inferences under which no rule and no pair of the set grows and some pair shrinks
/// (the reduction pair processor with the path order of Kop 2012; the search is ours).
///
/// `Found` drops every pair that its order lets go. `Nothing` comes only where no order that is tried lets a pair of
/// the set go, and `Spent` only with `budget` clauses, each of which shuts out a guess under which a condition fails,
/// or is learnt.
pub fn find_order(
    alloc: Global,
    system: &System,
    pairs: &PairList,
    set: &PairSet,
    budget: u64,
) -> Result<Search<OrderNode>, AllocError>
    requires few { length pairs.now ≤ most_pairs }
    requires whole { HasPairs (system_data system.now) (pairs_data pairs.now) }
    requires set { All (λ n. n < length pairs.now) set.now }
    ensures { IfOk result (IsAnswer (system_data system.now) (pairs_data pairs.now) set.now budget) }
{
    let covered = all_rules(alloc, system)?;
    let task = Task {
        system,
        pairs: pairs.as_slice(),
        set: set.as_slice(),
        covered: &covered,
    };
    system.is_well_made();
    let marked = marked_symbols(alloc, pairs, set)?;
    find_order_of(alloc, &task, &marked, budget)
}

// Searches for a task, with the marked symbols of its set.
fn find_order_of<'a>(
    alloc: Global,
    task: &Task<'a>,
    marked: &'a [u32],
    budget: u64,
) -> Result<Search<OrderNode>, AllocError>
    requires few { length task.now.pairs.now ≤ most_pairs }
    requires task { IsTaskOf task.now }
    requires marked { AreMarked (task_data task.now).pairs (task_data task.now).set marked.now }
    ensures { IfOk result (IsAnswer (system_data task.now.system.now) (task_data task.now).pairs (task_data task.now).set budget) }
{
    if budget == 0 {
        let none = Clauses::new(alloc);
        return Ok(Search::Spent(none));
    }
    let encoding = encoding_of(alloc, task, marked)?;
    let found = search_encoded(alloc, &encoding, budget)?;
    Ok(found)
}

// First a circuit: where it does not tell that there is no order, it may tell of bits that are worth trying first.
fn search_encoded<'a>(
    alloc: Global,
    encoding: &Encoding<'a>,
    budget: u64,
) -> Result<Search<OrderNode>, AllocError>
    requires few { length encoding.now.task.pairs.now ≤ most_pairs }
    requires encoding { IsEncoding encoding.now }
    requires room { 0 < budget }
    ensures { IfOk result (IsAnswer (system_in encoding.now) (task_in encoding.now).pairs (task_in encoding.now).set budget) }
{
    match circuited(alloc, encoding)? {
        Circuited::Nothing => Ok(Search::Nothing),
        Circuited::First(first) => search_from(alloc, encoding, first, budget),
        Circuited::Open => search_from(alloc, encoding, Vec::new(alloc), budget),
    }
}

// What a circuit tells.
fn circuited<'a>(alloc: Global, encoding: &Encoding<'a>) -> Result<Circuited, AllocError>
    requires { IsEncoding encoding.now }
    ensures { IfOk result (IsCircuited (task_in encoding.now)) }
{
    orders_by_circuit(
        alloc,
        &encoding.task,
        encoding.marked,
        &encoding.scopes,
        encoding.precedence_bits,
        MOST_LEARNT,
    )
}
