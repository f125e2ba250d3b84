//! All parts with their names looked up: the sorts, the symbols and then the rules.

ghost use Rattle.wh_system_parts.specs.Erase.{rparts};
ghost use Rattle.wh_system_parts.specs.Faults.{Passes};
ghost use Rattle.wh_system_parts.specs.RuleTests.{tests};
ghost use Rattle.wh_system_making.specs.RulesPassed.{IsResolution};

use crate::rules::{ResolvedRules, resolve_rules};
use std::alloc::Global;
use wh_system_parts::{
    Funs, NameTable, Parts, SystemFault, check_rule_count, declare_funs, declare_sorts,
};
use wh_types::Or;

/// Parts with their names looked up.
#[derive(Drop)]
pub struct Resolution {
    /// The names of the sorts.
    pub sorts: NameTable,
    /// The symbols.
    pub funs: Funs,
    /// The rules.
    pub rules: ResolvedRules,
}

/// The parts with their names looked up. The fault is that of the first of all tests that fails.
pub fn resolve_parts(alloc: Global, parts: &Parts) -> Result<Resolution, Or<SystemFault>>
    ensures { Passes (tests (rparts parts.now)) result (IsResolution (rparts parts.now)) }
{
    let sorts = declare_sorts(alloc, parts.sorts.as_slice())?;
    let funs = declare_funs(alloc, &sorts, parts.funs.as_slice())?;
    check_rule_count(parts.rules.as_slice())?;
    let rules = resolve_rules(alloc, &sorts, &funs, parts)?;
    Ok(Resolution { sorts, funs, rules })
}
