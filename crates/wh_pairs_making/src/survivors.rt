//! The pairs of a system.
//!
//! The rules are taken one by one. Each candidate of a rule is compared with the pairs that are left of the earlier
//! ones of that rule, since candidates of two rules do not subsume each other.

ghost use Rattle.std.specs.Prelude.{◌≡◌, ◌<◌, ◌≤◌, ◌++◌, ◌∷◌, [], List, Contains, length, map, IfOk, OnOk, IsTrue, ◌↔◌};
ghost use Rattle.wh_types.specs.Limits.{most_pairs};
ghost use Rattle.wh_types.specs.Outcome.{MatchOr};
ghost use Rattle.wh_types.specs.declared.want.Or.TheVariants.{Because};
ghost use Rattle.wh_terms.specs.Erase.{rewrite_rule};
ghost use Rattle.wh_pairs.specs.PairData.{PairData, pair_data};
ghost use Rattle.wh_system.specs.SystemView.{system_data};
ghost use Rattle.wh_pairs.specs.Calls.{calls_of};
ghost use Rattle.wh_pairs.specs.Candidates.{candidate, candidates};
ghost use Rattle.wh_pairs.specs.Subsumption.{ArePairs};
ghost use Rattle.wh_pairs.specs.Survivors.{Survive, IsSubsumedByOne};
ghost use Rattle.wh_pairs.specs.Views.{pairs_data};

use crate::candidate::{candidate, left_of};
use crate::subsumption::subsumed;
use std::alloc::{AllocError, Global};
use wh_pairs::{Pair, PairList};
use wh_pairs_calls::calls_of;
use wh_system::System;
use wh_terms::Rule;
use wh_types::{Or, counted};

/// How many pairs a system has at most.
pub const MOST_PAIRS: usize = 4096;

/// A system has more than 4,096 pairs.
#[derive(Drop)]
pub struct TooManyPairs;

impl From<TooManyPairs> for Or<TooManyPairs> {
    ghost from_gives = { λ cause e. e ≡ Because cause };

    fn from(cause: TooManyPairs) -> Self {
        Or::Because(cause)
    }
}

// Whether one of the pairs subsumes the candidate.
fn is_needless(candidate: &Pair, kept: &[Pair]) -> bool
    ensures { IsTrue result ↔ IsSubsumedByOne (pair_data candidate.now) (pairs_data kept.now) }
{
    for pair in kept {
        if subsumed(candidate, pair) {
            return true;
        }
    }
    false
}

// A further candidate joins the pairs that are left: it is dropped where one of them subsumes it, else it drops those
// that it subsumes.
fn keep(kept: &mut Vec<Pair>, candidate: Pair) -> Result<(), AllocError>
    ensures { (earlier : List PairData) → Survive earlier (pairs_data kept.old.items)
        → OnOk result (Survive (earlier ++ pair_data candidate ∷ []) (pairs_data kept.new.items)) }
{
    if is_needless(&candidate, kept.as_slice()) {
        return Ok(());
    }
    kept.retain(|pair| !subsumed(pair, &candidate));
    kept.push(candidate)?;
    Ok(())
}

// The pairs among the candidates of a rule, which has the number.
fn pairs_of_rule(
    alloc: Global,
    system: &System,
    number: u32,
    rule: &Rule,
) -> Result<Vec<Pair>, AllocError>
    requires { Contains (system_data system.now).rules (rewrite_rule rule.now) }
    ensures { IfOk result (λ kept. ArePairs (map (candidate (system_data system.now).symbols number (rewrite_rule rule.now))
        (calls_of (system_data system.now).rules (rewrite_rule rule.now))) (pairs_data kept.items)) }
{
    let signature = system.signature();
    let calls = calls_of(alloc, system, rule)?;
    let mut kept = Vec::new(alloc);
    if calls.is_empty() {
        return Ok(kept);
    }
    let left = left_of(alloc, rule)?;
    for call in calls.as_slice() {
        let made = candidate(alloc, signature, number, rule, &left, call)?;
        keep(&mut kept, made)?;
    }
    Ok(kept)
}

// The pairs join the list at its end.
fn add_pairs(list: &mut PairList, pairs: Vec<Pair>) -> Result<(), AllocError>
    ensures { OnOk result (pairs_data list.new ≡ pairs_data list.old ++ pairs_data pairs.items) }
{
    for pair in pairs {
        list.push(pair)?;
    }
    Ok(())
}

/// The dependency pairs of a system in order (Kop 2012; Fuhs and Kop 2019): the candidates of its rules, without those
/// that another candidate makes needless. The cause is told exactly where there are more than 4,096.
pub fn pairs(alloc: Global, system: &System) -> Result<PairList, Or<TooManyPairs>>
    ensures { MatchOr result
        (λ list. ArePairs (candidates (system_data system.now).symbols (system_data system.now).rules) (pairs_data list)
        × (length list ≤ most_pairs))
        (λ _. (list : List PairData) × ArePairs (candidates (system_data system.now).symbols (system_data system.now).rules) list
        × (most_pairs < length list)) }
{
    let mut list = PairList::new(alloc);
    for (i, rule) in system.rules().iter().enumerate() {
        let found = pairs_of_rule(alloc, system, counted(i)?, rule)?;
        if list.as_slice().len() + found.len() > MOST_PAIRS {
            return Err(Or::Because(TooManyPairs));
        }
        add_pairs(&mut list, found)?;
    }
    Ok(list)
}
