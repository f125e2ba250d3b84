//! The search for a proof, and for a refutation of the projections of the set on which it is stuck.

ghost use Rattle.std.specs.Prelude.{◌≡◌, ◌+◌, ◌<◌, ◌≤◌, ◌^◌, ℕ, All, Contains, IfOk, length, map};
ghost use Rattle.wh_pairs.specs.PairData.{pair_data};
ghost use Rattle.wh_pairs.specs.SystemPairs.{HasPairs};
ghost use Rattle.wh_pairs.specs.Views.{pairs_data};
ghost use Rattle.wh_system.specs.SystemView.{system_data};
ghost use Rattle.wh_sat_trail.specs.Propagation.{Within};
ghost use Rattle.wh_sat_trail.specs.declared.entry.Entry.{Entry};
ghost use Rattle.wh_refute.specs.Refuting.{IsRefutation};
ghost use Rattle.wh_prover.specs.Arriving.{HasNoProjection};
ghost use Rattle.wh_prover_refuting.specs.Verdicts.{IsOfSet, IsVerdict};

use std::alloc::{AllocError, Global};
use wh_find_subterm::projection_formula;
use wh_pairs::{PairList, PairSet};
use wh_prover::{Answer, Cause, Options, prove};
use wh_refute::check_refutation;
use wh_sat_listed::{Listed, solve_listed};
use wh_sat_trail::{Formula, Refutation};
use wh_system::System;
use wh_types::Or;

// How many clauses a formula may have so that they and a million learnt ones have numbers. More would take more memory
// than 32 bits number, so they count as want of memory.
const MOST_CLAUSES: usize = 2_146_000_000;

/// The outcome of a search for a proof and of a refutation.
#[derive(Drop)]
pub enum Verdict {
    /// The search for a proof is stuck on this set, and a list that the checker accepted shows that no projection lets
    /// a pair of it go.
    Refuted(PairSet),
    /// The search is stuck on this set, but as many clauses as may be were learnt before there was such a list.
    Unrefuted(PairSet),
    /// The search is not stuck; this is its answer.
    Unstuck(Answer),
}

/// Searches for a proof, and where that is stuck on a set of pairs for a list of clauses which shows that no projection
/// lets a pair of the set go. Of interpretations the list says nothing. The checker has accepted the list of a set that
/// is `Refuted`.
pub fn refute(
    alloc: Global,
    system: &System,
    pairs: &PairList,
    options: &Options,
) -> Result<Verdict, AllocError>
    requires pairs { HasPairs (system_data system.now) (pairs_data pairs.now) }
    requires tries { options.now.tries ≤ 1000000 }
    ensures { IfOk result (IsVerdict (system_data system.now) (pairs_data pairs.now) options.now) }
{
    let answer = prove(alloc, system, pairs, options)?;
    match answer {
        Answer::Maybe(Cause::Stuck(set)) => of_set(alloc, system, pairs, set, options.tries),
        other => Ok(Verdict::Unstuck(other)),
    }
}

// The verdict on a set of which no projection lets a pair go.
fn of_set(
    alloc: Global,
    system: &System,
    pairs: &PairList,
    set: PairSet,
    tries: u64,
) -> Result<Verdict, AllocError>
    requires set { All (λ n. n < length pairs.now) set }
    requires none { HasNoProjection (system_data system.now).rules (map pair_data pairs.now) set }
    requires tries { tries ≤ 1000000 }
    ensures { IfOk result (IsOfSet (system_data system.now).rules (map pair_data pairs.now) tries set) }
{
    let formula = projection_formula(alloc, system, pairs, &set)?;
    if formula.clauses.as_slice().len() > MOST_CLAUSES {
        return Err(AllocError);
    }
    let listed = solve_listed(alloc, &formula, tries)?;
    match &listed {
        Listed::Sat(_) => unreachable!(),
        Listed::Unsat(list) => {
            confirm(alloc, &formula, list)?;
            Ok(Verdict::Refuted(set))
        }
        Listed::Spent(_) => Ok(Verdict::Unrefuted(set)),
    }
}

// The checker's word on a list that is good.
fn confirm(alloc: Global, formula: &Formula, list: &Refutation) -> Result<(), AllocError>
    requires within { Within formula.now.variables formula.now.clauses }
    requires few { length formula.now.clauses + length list.now < 2 ^ 31 }
    requires hints { (e : Entry) → Contains list.now e → length e.hints ≤ formula.now.variables + 1 }
    requires good { IsRefutation formula.now.variables formula.now.clauses list.now }
{
    let _variables = formula.variables;
    match check_refutation(alloc, formula, list) {
        Ok(_) => Ok(()),
        Err(Or::NoMemory) => Err(AllocError),
        Err(Or::Because(_)) => unreachable!(),
    }
}
