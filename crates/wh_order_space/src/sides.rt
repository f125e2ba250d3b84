//! Demands on the bits of orders, made of the sides of rules and of pairs.

ghost use Rattle.std.specs.Prelude.{◌≡◌, ◌<◌, IfOk, Some, length, map, slice_get};
ghost use Rattle.wh_terms.specs.Erase.{tm};
ghost use Rattle.wh_terms.specs.Rules.{RewriteRule};
ghost use Rattle.wh_terms.specs.Tree.{Tm, fun, spine};
ghost use Rattle.wh_system.specs.CanonicalView.{side_of};
ghost use Rattle.wh_system.specs.SystemView.{system_data};
ghost use Rattle.wh_pairs.specs.PairData.{pair_data};
ghost use Rattle.wh_reduction_pairs.specs.TaskView.{task_data};
ghost use Rattle.wh_polycheck.specs.Marks.{head_of_side};
ghost use Rattle.wh_order_extended.specs.ExtendedSides.{extended_side, marked_number};
ghost use Rattle.wh_order.specs.TreeSides.{extended_pair_side};
ghost use Rattle.wh_order_demands.specs.Claims.{IsPossible};
ghost use Rattle.wh_order_space.specs.Circuited.{IsClaimOfPair, IsClaimOfRule, IsDemandOfSet, IsSide};

use std::alloc::{AllocError, Global};
use wh_order_demands::{
    Claim, Demand, Spot, both, demand_of, demand_of_filters, demand_of_orders, either,
};
use wh_order_sides::{extended_arguments, extended_rule};
use wh_pairs::{Pair, call};
use wh_reduction_pairs::Task;
use wh_system::System;
use wh_terms::{Term, Terms};
use wh_types::{Or, counted, sum};

// How deep claims are followed; `MOST_CLAIMS` bounds how many are followed in all.
const ROOM: u32 = 400;

const MOST_CLAIMS: u32 = 1_000_000;

/// What is demanded of the bits of orders that let a pair of the set go.
pub fn demand_of_set<'a>(
    alloc: Global,
    task: &Task<'a>,
    spots: &[Option<Spot>],
) -> Result<Demand, AllocError>
    ensures { IfOk result (IsDemandOfSet (task_data task.now) spots.now) }
{
    let mut left = MOST_CLAIMS;
    let rules = demand_of_rules(alloc, task, spots, &mut left)?;
    let pairs = demand_of_pairs(alloc, task, spots, &mut left)?;
    let some = demand_of_some(alloc, task, spots, &mut left)?;
    let all = both(alloc, rules, pairs)?;
    let lines = both(alloc, all, some)?;
    let filters = demand_of_filters(alloc, spots)?;
    let orders = demand_of_orders(alloc, spots, &lines)?;
    let further = both(alloc, filters, orders)?;
    both(alloc, lines, further)
}

// Each rule is oriented.
fn demand_of_rules<'a>(
    alloc: Global,
    task: &Task<'a>,
    spots: &[Option<Spot>],
    left: &mut u32,
) -> Result<Demand, AllocError>
    ensures { IfOk result (IsDemandOfSet (task_data task.now) spots.now) }
{
    let mut found = Demand::Always;
    for number in task.covered {
        let own = demand_of_rule(alloc, task, spots, *number, left)?;
        found = both(alloc, found, own)?;
    }
    Ok(found)
}

// Each pair of the set is.
fn demand_of_pairs<'a>(
    alloc: Global,
    task: &Task<'a>,
    spots: &[Option<Spot>],
    left: &mut u32,
) -> Result<Demand, AllocError>
    ensures { IfOk result (IsDemandOfSet (task_data task.now) spots.now) }
{
    let mut found = Demand::Always;
    for number in task.set {
        let own = demand_of_pair(alloc, task, spots, Claim::AtLeast, *number, left)?;
        found = both(alloc, found, own)?;
    }
    Ok(found)
}

// Some pair of the set is oriented without being the same on both sides.
fn demand_of_some<'a>(
    alloc: Global,
    task: &Task<'a>,
    spots: &[Option<Spot>],
    left: &mut u32,
) -> Result<Demand, AllocError>
    ensures { IfOk result (IsDemandOfSet (task_data task.now) spots.now) }
{
    let mut found = Demand::Never;
    for number in task.set {
        let own = demand_of_pair(alloc, task, spots, Claim::Greater, *number, left)?;
        found = either(alloc, found, own)?;
    }
    Ok(found)
}

// The left side of the rule with this number is at least the right one; nothing is demanded of a number that is no
// rule's, nor where a side is too wide.
fn demand_of_rule<'a>(
    alloc: Global,
    task: &Task<'a>,
    spots: &[Option<Spot>],
    number: u32,
    left: &mut u32,
) -> Result<Demand, AllocError>
    ensures { IfOk result (IsClaimOfRule (task_data task.now) spots.now number) }
{
    if number as usize >= task.system.rules().len() {
        return Ok(Demand::Always);
    }
    let from = rule_side(alloc, task.system, number, false)?;
    let to = rule_side(alloc, task.system, number, true)?;
    between(alloc, spots, Claim::AtLeast, &from, &to, left)
}

// The claim for two sides, if there are two.
fn between(
    alloc: Global,
    spots: &[Option<Spot>],
    claim: Claim,
    from: &Option<Box<Term>>,
    to: &Option<Box<Term>>,
    left: &mut u32,
) -> Result<Demand, AllocError>
    ensures { (s t : Tm) → IsSide s from.now → IsSide t to.now → IfOk result (IsPossible spots.now claim s t) }
{
    match (from, to) {
        (Some(from), Some(to)) => demand_of(alloc, spots, claim, from, to, ROOM, left),
        _ => Ok(Demand::Always),
    }
}

// A side of the rule, extended; `None` where it is too wide.
fn rule_side(
    alloc: Global,
    system: &System,
    rule: u32,
    right: bool,
) -> Result<Option<Box<Term>>, AllocError>
    requires { rule < length (system_data system.now).rules }
    ensures { (r : RewriteRule) → slice_get (system_data system.now).rules rule ≡ Some r
        → IfOk result (IsSide (extended_side (system_data system.now).symbols r (side_of right r))) }
{
    match extended_rule(alloc, system, rule, right) {
        Ok(side) => Ok(Some(Box::new(alloc, side.term)?)),
        Err(Or::NoMemory) => Err(AllocError),
        Err(Or::Because(_)) => Ok(None),
    }
}

// The claim for the sides of the pair with this number; as for a rule nothing may be demanded.
fn demand_of_pair<'a>(
    alloc: Global,
    task: &Task<'a>,
    spots: &[Option<Spot>],
    claim: Claim,
    number: u32,
    left: &mut u32,
) -> Result<Demand, AllocError>
    ensures { IfOk result (IsClaimOfPair (task_data task.now) spots.now claim number) }
{
    if number as usize >= task.pairs.len() {
        return Ok(Demand::Always);
    }
    let pair = &task.pairs[number as usize];
    let from = pair_side(alloc, task.system, pair, false)?;
    let to = pair_side(alloc, task.system, pair, true)?;
    between(alloc, spots, claim, &from, &to, left)
}

// A side of the pair, extended; `None` where it is too wide.
fn pair_side(
    alloc: Global,
    system: &System,
    pair: &Pair,
    right: bool,
) -> Result<Option<Box<Term>>, AllocError>
    ensures { IfOk result (IsSide (extended_pair_side (system_data system.now).symbols (pair_data pair.now) right)) }
{
    match extended_arguments(alloc, system, pair, right) {
        Ok(items) => {
            let made = marked_call(alloc, system, head_of_side(pair, right), &items)?;
            Ok(Some(made))
        }
        Err(Or::NoMemory) => Err(AllocError),
        Err(Or::Because(_)) => Ok(None),
    }
}

// The symbol whose mark heads the right side of a pair, or its left side.
fn head_of_side(pair: &Pair, right: bool) -> u32
    ensures { result ≡ head_of_side (pair_data pair.now) right }
{
    if right { pair.right_fun } else { pair.left_fun }
}

// The marked symbol applied to arguments.
fn marked_call(
    alloc: Global,
    system: &System,
    symbol: u32,
    arguments: &Terms,
) -> Result<Box<Term>, AllocError>
    ensures { IfOk result (λ made. tm made.value
        ≡ spine (fun (marked_number (system_data system.now).symbols symbol)) (map tm arguments.now)) }
{
    let symbols = counted(system.signature().funs.as_slice().len())?;
    call(alloc, sum(symbols, symbol)?, arguments)
}
