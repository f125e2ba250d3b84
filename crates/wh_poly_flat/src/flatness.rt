//! The test whether a set is flat: first-order, and not large.

ghost use Rattle.std.specs.Prelude.{ℕ, ◌↔◌, ◌<◌, ◌≤◌, All, Contains, IsTrue, length, map, sum_by};
ghost use Rattle.wh_terms.specs.Budget.{Left};
ghost use Rattle.wh_terms.specs.Erase.{rewrite_rules, symbols};
ghost use Rattle.wh_terms.specs.Rules.{IsWellMade, RewriteRule};
ghost use Rattle.wh_pairs.specs.PairData.{PairData, pair_data};
ghost use Rattle.wh_pairs.specs.Sets.{InSet};
ghost use Rattle.wh_reduction_pairs.specs.TaskData.{IsTask};
ghost use Rattle.wh_reduction_pairs.specs.TaskView.{task_data};
ghost use Rattle.wh_poly_flat.specs.Flat.{IsFlat, IsFlatPair, IsFlatRule, IsListed, occurrences_at, rule_occurrences_at};

use crate::rooms::{after_pair, after_rule};
use wh_pairs::Pair;
use wh_reduction_pairs::Task;
use wh_terms::{Rule, Signature};

// The greatest number of occurrences of symbols and meta-variables in all sides together.
const MOST_IN_ALL: u32 = 8192;

/// Whether the set is flat: the sides of the rules that are to be covered and of the set's pairs are first-order, those
/// of rules of a sort, and they are not large. It takes no memory, and stops where a side is not flat or too much
/// occurs.
pub fn flat<'a>(task: &Task<'a>) -> bool
    requires { IsTask (task_data task.now) }
    ensures { IsTrue result ↔ IsFlat (task_data task.now) }
{
    task.system.is_well_made();
    let signature = task.system.signature();
    match after_rules(signature, task.system.rules(), task.covered, MOST_IN_ALL) {
        Some(rest) => after_pairs(signature, task.pairs, task.set, rest).is_some(),
        None => false,
    }
}

// What is left of the room behind the rules of the list; `None` where one is not flat, or the room is spent.
fn after_rules(signature: &Signature, rules: &[Rule], listed: &[u32], room: u32) -> Option<u32>
    requires made { (r : RewriteRule) → Contains (rewrite_rules rules.now) r → IsWellMade (symbols signature.now) r }
    requires within { All (λ n. n < length rules.now) listed.now }
    ensures { Left room (sum_by (rule_occurrences_at (rewrite_rules rules.now)) listed.now)
        (((r : RewriteRule) → IsListed (rewrite_rules rules.now) listed.now r → IsFlatRule (symbols signature.now) r)
        × (sum_by (rule_occurrences_at (rewrite_rules rules.now)) listed.now ≤ room)) result }
{
    let mut rest = room;
    for number in listed {
        rest = after_rule(signature, &rules[*number as usize], rest)?;
    }
    Some(rest)
}

// Beyond the pairs of the set.
fn after_pairs(signature: &Signature, pairs: &[Pair], set: &[u32], room: u32) -> Option<u32>
    requires { All (λ n. n < length pairs.now) set.now }
    ensures { Left room (sum_by (occurrences_at (map pair_data pairs.now)) set.now)
        (((p : PairData) → InSet (map pair_data pairs.now) set.now p → IsFlatPair (symbols signature.now) p)
        × (sum_by (occurrences_at (map pair_data pairs.now)) set.now ≤ room)) result }
{
    let mut rest = room;
    for number in set {
        rest = after_pair(signature, &pairs[*number as usize], rest)?;
    }
    Some(rest)
}
