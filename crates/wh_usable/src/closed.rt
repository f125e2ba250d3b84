//! Whether the rules that are to be covered are closed for a set of dependency pairs.

ghost use Rattle.std.specs.Prelude.{◌↔◌, ℕ, IfErr, IsTrue, List, MatchOption, OnOk};
ghost use Rattle.wh_terms.specs.Erase.{rewrite_rule, symbols};
ghost use Rattle.wh_terms.specs.Rules.{IsWellMade};
ghost use Rattle.wh_pairs.specs.PairData.{IsIncreasing, pair_data};
ghost use Rattle.wh_system.specs.SystemView.{system_data};
ghost use Rattle.wh_reduction_pairs.specs.TaskData.{IsTask};
ghost use Rattle.wh_reduction_pairs.specs.TaskView.{task_data};
ghost use Rattle.wh_polycheck.specs.Marks.{marked_types};
ghost use Rattle.wh_usable_first_order.specs.FirstOrder.{AreFlatTrees, AreSorts, IsFlatTree};
ghost use Rattle.wh_usable.specs.Closed.{AreClosedPairs, AreClosedRules, IsClosed, IsClosedPair, IsClosedRule};
ghost use Rattle.wh_usable.specs.Tables.{IsTableOf};
ghost use Rattle.wh_usable.specs.Open.{IsFirstOpen, IsFirstOpenPair, IsFirstOpenRule};

use crate::calls::{MOST_SYMBOLS, calls_listed, each_calls_listed, look_up};
use crate::sides::{are_flat, is_flat};
use wh_pairs::Pair;
use wh_reduction_pairs::Task;
use wh_system::System;
use wh_terms::{Rule, Signature};
use wh_usable_first_order::{is_of_a_sort, takes_sorts_first};

/// Why a list of rules is not closed for a set.
#[derive(Clone, Copy)]
pub enum NotClosed {
    /// The rule with this number is listed, and has a side that is not first-order, or calls a rule that is not listed.
    Rule {
        /// The number of the rule.
        rule: u32,
    },
    /// A pair of the set calls a rule that is not listed.
    Pair {
        /// The number of the pair.
        pair: u32,
    },
}

/// Whether the rules that are to be covered are closed for the set: they are all rules of the system, or each of them,
/// and each pair of the set, is first-order and calls only symbols all whose rules are among them (usable rules, Arts
/// and Giesl 2000; this form is the project's own).
///
/// `Err` names the first of these rules that is not so, or else the first pair of the set. It takes no memory, and its
/// time is linear in the rules of the system and in the sides that it looks at.
pub fn check_closed<'a>(task: &Task<'a>) -> Result<(), NotClosed>
    requires task { IsTask (task_data task.now) }
    requires increasing { IsIncreasing (task_data task.now).covered }
    ensures closed { OnOk result (IsClosed (task_data task.now)) }
    ensures first { IfErr result (IsFirstOpen (task_data task.now)) }
{
    task.system.is_well_made();
    if task.covered.len() == task.system.rules().len() {
        return Ok(());
    }
    let mut table = [false; MOST_SYMBOLS];
    look_up(&mut table, task.system, task.covered);
    if let Some(rule) = first_open_rule(task, &table) {
        return Err(NotClosed::Rule { rule });
    }
    if let Some(pair) = first_open_pair(task, &table) {
        return Err(NotClosed::Pair { pair });
    }
    Ok(())
}

// The first listed rule that is not closed.
fn first_open_rule<'a>(task: &Task<'a>, table: &[bool]) -> Option<u32>
    requires task { IsTask (task_data task.now) }
    requires table { IsTableOf (task_data task.now).rules (task_data task.now).covered table.now }
    ensures { MatchOption result (AreClosedRules (task_data task.now)) (IsFirstOpenRule (task_data task.now)) }
{
    task.system.is_well_made();
    for number in task.covered {
        let rule = &task.system.rules()[*number as usize];
        if !is_closed_rule(task.system, table, rule) {
            return Some(*number);
        }
    }
    None
}

// The first pair of the set that is not closed.
fn first_open_pair<'a>(task: &Task<'a>, table: &[bool]) -> Option<u32>
    requires task { IsTask (task_data task.now) }
    requires table { IsTableOf (task_data task.now).rules (task_data task.now).covered table.now }
    ensures { MatchOption result (AreClosedPairs (task_data task.now)) (IsFirstOpenPair (task_data task.now)) }
{
    for number in task.set {
        if !is_closed_pair(task.system, table, &task.pairs[*number as usize]) {
            return Some(*number);
        }
    }
    None
}

// Whether the rule is closed.
fn is_closed_rule(system: &System, table: &[bool], rule: &Rule) -> bool
    requires { IsWellMade (system_data system.now).symbols (rewrite_rule rule.now) }
    ensures { (listed : List ℕ) → IsTableOf (system_data system.now).rules listed table.now → IsTrue result
        ↔ IsClosedRule (system_data system.now).symbols (system_data system.now).rules listed (rewrite_rule rule.now) }
{
    let signature = system.signature();
    if !is_flat_rule(signature, rule) {
        return false;
    }
    is_of_a_sort(signature, rule.metas.as_slice(), &rule.left) && calls_listed(table, &rule.right)
}

// Whether both sides of the rule are first-order.
fn is_flat_rule(signature: &Signature, rule: &Rule) -> bool
    ensures { IsTrue result ↔ (IsFlatTree (symbols signature.now) (rewrite_rule rule.now).metas (rewrite_rule rule.now).left
        × IsFlatTree (symbols signature.now) (rewrite_rule rule.now).metas (rewrite_rule rule.now).right) }
{
    let metas = rule.metas.as_slice();
    is_flat(signature, metas, &rule.left) && is_flat(signature, metas, &rule.right)
}

// Whether the pair is closed.
fn is_closed_pair(system: &System, table: &[bool], pair: &Pair) -> bool
    ensures { (listed : List ℕ) → IsTableOf (system_data system.now).rules listed table.now → IsTrue result
        ↔ IsClosedPair (system_data system.now).symbols (system_data system.now).rules listed (pair_data pair.now) }
{
    if !has_sorts(system, pair) {
        return false;
    }
    if !is_flat_pair(system, pair) {
        return false;
    }
    each_calls_listed(table, pair.right.as_slice())
}

// Whether all arguments of both marked symbols of the pair are of a sort.
fn has_sorts(system: &System, pair: &Pair) -> bool
    ensures { IsTrue result
        ↔ (AreSorts (marked_types (system_data system.now).symbols (system_data system.now).rules (pair_data pair.now).left_fun)
        × AreSorts (marked_types (system_data system.now).symbols (system_data system.now).rules (pair_data pair.now).right_fun)) }
{
    takes_sorts(system, pair.left_fun) && takes_sorts(system, pair.right_fun)
}

// Whether all arguments of the marked symbol are of a sort.
fn takes_sorts(system: &System, symbol: u32) -> bool
    ensures { IsTrue result ↔ AreSorts (marked_types (system_data system.now).symbols (system_data system.now).rules symbol) }
{
    match system.need(symbol) {
        Some(count) => takes_sorts_first(system.signature(), symbol, count),
        None => true,
    }
}

// Whether the arguments of both sides are first-order.
fn is_flat_pair(system: &System, pair: &Pair) -> bool
    ensures { IsTrue result
        ↔ (AreFlatTrees (system_data system.now).symbols (pair_data pair.now).metas (pair_data pair.now).left
        × AreFlatTrees (system_data system.now).symbols (pair_data pair.now).metas (pair_data pair.now).right) }
{
    let metas = pair.metas.as_slice();
    are_flat(system.signature(), metas, pair.left.as_slice())
        && are_flat(system.signature(), metas, pair.right.as_slice())
}
