//! The test that a list of rules has each rule once and in order.

ghost use Rattle.std.specs.Prelude.{◌↔◌, ◌<◌, All, IsTrue, length};
ghost use Rattle.wh_system.specs.SystemView.{system_data};
ghost use Rattle.wh_usable.specs.Closed.{AreRulesInOrder};

use wh_pairs::is_increasing;
use wh_system::System;

/// Whether the numbers are those of rules of the system, each above the one before.
pub fn are_rules_in_order(system: &System, numbers: &[u32]) -> bool
    ensures { IsTrue result ↔ AreRulesInOrder (length (system_data system.now).rules) numbers.now }
{
    is_increasing(numbers) && all_below(numbers, system.rules().len())
}

// Whether all numbers are below the bound.
fn all_below(numbers: &[u32], bound: usize) -> bool
    ensures { IsTrue result ↔ All (λ n. n < bound) numbers.now }
{
    for number in numbers {
        if *number as usize >= bound {
            return false;
        }
    }
    true
}
