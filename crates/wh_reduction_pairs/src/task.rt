//! Tasks: a set of dependency pairs, and the rules and pairs that must not grow so that some pairs can be dropped.

ghost use Rattle.std.specs.Prelude.{◌≡◌, IfOk, length};
ghost use Rattle.wh_system.specs.SystemView.{system_data};
ghost use Rattle.wh_reduction_pairs.specs.TaskData.{numbers_from};

use std::alloc::{AllocError, Global};
use wh_pairs::Pair;
use wh_system::System;

/// A set of the dependency pairs of a system, of which some are to be dropped, and the rules that are to be covered for
/// that.
#[derive(Clone, Copy)]
pub struct Task<'a> {
    /// The system.
    pub system: &'a System,
    /// The dependency pairs of the system.
    pub pairs: &'a [Pair],
    /// The numbers of the pairs in the set, increasing.
    pub set: &'a [u32],
    /// The numbers of the rules that are to be covered.
    pub covered: &'a [u32],
}

/// The numbers of all rules of the system, in order.
pub fn all_rules(alloc: Global, system: &System) -> Result<Vec<u32>, AllocError>
    ensures { IfOk result (λ numbers. numbers.items ≡ numbers_from 0 (length (system_data system.now).rules)) }
{
    system.is_well_made();
    numbers_below(alloc, system.rules().len() as u32)
}

// The numbers below this one, in order.
#[tactic(auto, using(crate::proofs::Numbers::numbers_push))]
fn numbers_below(alloc: Global, count: u32) -> Result<Vec<u32>, AllocError>
    ensures { IfOk result (λ numbers. numbers.items ≡ numbers_from 0 count) }
{
    let mut numbers = Vec::new(alloc);
    for number in 0..count {
        numbers.push(number)?;
    }
    Ok(numbers)
}
