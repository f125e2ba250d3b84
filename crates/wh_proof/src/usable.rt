//! The rules that a node of interpretations is to cover: those that it lists, or all rules.

ghost use Rattle.std.specs.Prelude.{◌≡◌, IfOk, MatchOption, length};
ghost use Rattle.wh_system.specs.SystemView.{system_data};
ghost use Rattle.wh_usable.specs.Closed.{AreRulesInOrder};
ghost use Rattle.wh_proof.specs.Looked.{CoversRules, covered_rules};

use std::alloc::{AllocError, Global};
use wh_reduction_pairs::all_rules;
use wh_system::System;
use wh_types::Numbers;
use wh_usable::are_rules_in_order;

/// The numbers of the rules that a node with this list is to cover: those of the list, or all rules where there is
/// none; `None` where the list is not one of rules, each above the one before.
pub fn rules_to_cover(
    alloc: Global,
    system: &System,
    usable: &Option<Numbers>,
) -> Result<Option<Vec<u32>>, AllocError>
    ensures { IfOk result (λ found. MatchOption found (CoversRules (system_data system.now) usable.now → ⊥)
        (λ rules. (rules.items ≡ covered_rules usable.now (length (system_data system.now).rules))
        × CoversRules (system_data system.now) usable.now)) }
{
    match usable {
        Some(listed) => rules_in_order(alloc, system, listed.as_slice()),
        None => Ok(Some(all_rules(alloc, system)?)),
    }
}

// A copy of the list, if it is one of rules, each above the one before.
fn rules_in_order(
    alloc: Global,
    system: &System,
    listed: &[u32],
) -> Result<Option<Vec<u32>>, AllocError>
    ensures { IfOk result (λ found. MatchOption found (AreRulesInOrder (length (system_data system.now).rules) listed.now → ⊥)
        (λ rules. (rules.items ≡ listed.now) × AreRulesInOrder (length (system_data system.now).rules) listed.now)) }
{
    if !are_rules_in_order(system, listed) {
        return Ok(None);
    }
    Ok(Some(Vec::from_slice(alloc, listed)?))
}
