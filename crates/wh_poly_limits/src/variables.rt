//! The value of a variable: itself at the variables that its type adds. These are exponential in the type's depth, so
//! they are weighed before they are made.

ghost use Rattle.std.specs.Prelude.{◌≡◌, ◌+◌, ◌<◌, ◌≤◌, ◌⊎◌, IfOk, MatchOption};
ghost use Rattle.wh_types.specs.Erase.{ty};
ghost use Rattle.wh_types.specs.Outcome.{IfBecause};
ghost use Rattle.wh_poly.specs.Erase.{poly};
ghost use Rattle.wh_poly.specs.Limits.{Exceeds};
ghost use Rattle.wh_poly.specs.Added.{variable as value_of_variable, added_weight, added_nesting};
ghost use Rattle.wh_poly.specs.Excesses.{ExceedsAs};

use crate::limits::{MAX_NESTING, MAX_WEIGHT};
use std::alloc::Global;
use wh_poly::{Excess, Poly, added, one_factor, with_arguments};
use wh_types::{Or, SimpleType};

/// The value of the variable `x` of the type in a scope of `count` variables; a fault only where it exceeds a limit.
pub fn variable(alloc: Global, kind: &SimpleType, count: u32, x: u32) -> Result<Poly, Or<Excess>>
    ensures ok { IfOk result (λ r. (poly r ≡ value_of_variable (ty kind.now) count x) × (Exceeds (poly r) → ⊥)) }
    ensures fault { IfBecause result (λ e. ExceedsAs e (value_of_variable (ty kind.now) count x)) }
{
    // The monomial and its one factor weigh 2.
    if weigh_added(kind, MAX_WEIGHT - 2, MAX_NESTING).is_none() {
        return Err(Or::Because(Excess::TooLarge));
    }
    let inner = with_arguments(count, kind)?;
    let args = added(alloc, kind, inner, count)?;
    let value = one_factor(alloc, x, args)?;
    Ok(value)
}

// What is left of the budget without the weight of the variables that the type adds; None where they weigh more, or
// their arguments nest deeper than the depth.
fn weigh_added(kind: &SimpleType, budget: u32, depth: u32) -> Option<u32>
    ensures { MatchOption result ((budget < added_weight (ty kind.now)) ⊎ (depth < added_nesting (ty kind.now)))
        (λ left. (added_weight (ty kind.now) + left ≡ budget) × (added_nesting (ty kind.now) ≤ depth)) }
{
    let mut left = budget;
    let mut here = kind;
    while let SimpleType::Arrow(first, rest) = here {
        if left < 2 || depth == 0 {
            return None;
        }
        left = weigh_added(first, left - 2, depth - 1)?;
        here = rest;
    }
    Some(left)
}
