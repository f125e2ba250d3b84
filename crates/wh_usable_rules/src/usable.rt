//! The usable rules of a set of pairs: the least closed list of rules. `usable_rules` is the main function.

ghost use Rattle.std.specs.Prelude.{◌<◌, All, IfOk, length};
ghost use Rattle.wh_system.specs.SystemView.{system_data};
ghost use Rattle.wh_pairs.specs.PairData.{IsIncreasing};
ghost use Rattle.wh_pairs.specs.Views.{pairs_data};
ghost use Rattle.wh_reduction_pairs.specs.TaskData.{task_over};
ghost use Rattle.wh_usable_rules.specs.Called.{AreRulesOfCalled};
ghost use Rattle.wh_usable_rules.specs.Least.{AreUsableRules};

use crate::taking::{call_pairs, numbers_of, take_all};
use std::alloc::{AllocError, Global};
use wh_pairs::{PairList, PairSet};
use wh_reduction_pairs::Task;
use wh_system::System;
use wh_types::Numbers;
use wh_usable::check_closed;

/// The usable rules of the set: those of the symbols that are called from its pairs. `None` where no list of rules is
/// closed for the set but that of all rules.
///
/// The list is increasing and it is the least one that is closed (usable rules, Arts and Giesl 2000; which lists are
/// closed is the project's own). Nothing is searched for: the time is linear in the sides of pairs and rules, beside
/// that each rule is looked at for each one that is taken.
pub fn usable_rules(
    alloc: Global,
    system: &System,
    pairs: &PairList,
    set: &PairSet,
) -> Result<Option<Numbers>, AllocError>
    requires { All (λ n. n < length pairs.now) set.now }
    ensures { IfOk result (AreUsableRules (system_data system.now) (pairs_data pairs.now) set.now) }
{
    let listed = rules_of_called(alloc, system, pairs, set)?;
    let task = Task {
        system,
        pairs: pairs.as_slice(),
        set: set.as_slice(),
        covered: listed.as_slice(),
    };
    if listed.as_slice().len() == system.rules().len() {
        return Ok(None);
    }
    match check_closed(&task) {
        Ok(()) => Ok(Some(listed)),
        Err(_) => Ok(None),
    }
}

// No system has more symbols, or more rules.
const MOST_SYMBOLS: usize = 1024;

const MOST_RULES: usize = 1024;

// The numbers of the rules of all symbols that are called from the set.
fn rules_of_called(
    alloc: Global,
    system: &System,
    pairs: &PairList,
    set: &PairSet,
) -> Result<Numbers, AllocError>
    requires { All (λ n. n < length pairs.now) set.now }
    ensures increasing { IfOk result (λ listed. IsIncreasing listed) }
    ensures called { IfOk result (λ listed. AreRulesOfCalled (task_over (system_data system.now).symbols (system_data system.now).rules
        (pairs_data pairs.now) set.now listed)) }
{
    system.is_well_made();
    let mut called = [false; MOST_SYMBOLS];
    call_pairs(&mut called, pairs.as_slice(), set.as_slice());
    let mut taken = [false; MOST_RULES];
    take_all(&mut called, &mut taken, system.rules());
    numbers_of(alloc, &taken)
}
