//! The conditions of a pair: copies of them, and whether one list has all of another.

ghost use Rattle.std.specs.Prelude.{◌≡◌, ◌↔◌, IfOk, IsTrue, map};
ghost use Rattle.wh_pairs.specs.PairData.{within};
ghost use Rattle.wh_pairs.specs.Conditions.{AreAmong};

use std::alloc::{AllocError, Global};
use wh_pairs::{Condition, Conditions};

/// The conditions as a list of their own.
pub fn conditions_of(alloc: Global, conditions: &[Condition]) -> Result<Conditions, AllocError>
    ensures { IfOk result (λ list. list ≡ conditions.now) }
{
    let mut list = Conditions::new(alloc);
    for condition in conditions {
        list.push(*condition)?;
    }
    Ok(list)
}

/// Whether all conditions of the one list are in the other.
pub fn are_among(few: &[Condition], many: &[Condition]) -> bool
    ensures { IsTrue result ↔ AreAmong (map within few.now) (map within many.now) }
{
    for condition in few {
        if !many.contains(condition) {
            return false;
        }
    }
    true
}
