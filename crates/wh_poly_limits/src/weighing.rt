//! Whether a value is within the limits: its weight is taken from a budget, so that a walk stops as soon as it has
//! spent it.

ghost use Rattle.std.specs.Prelude.{◌≡◌, ◌+◌, ◌<◌, ◌≤◌, ◌⊎◌, MatchOption};
ghost use Rattle.wh_poly.specs.Erase.{poly, atoms, polys};
ghost use Rattle.wh_poly.specs.Limits.{weight, weight_of_factors, weight_of_arguments, nesting, nesting_of_factors, nesting_of_arguments};

use wh_poly::{Atoms, Poly, Polys};

/// What is left of the budget without the weight of the polynomial; None where it weighs more than the budget, or its
/// arguments nest deeper than the depth.
#[cycle(weigh)]
pub fn weigh(p: &Poly, budget: u32, depth: u32) -> Option<u32>
    ensures { MatchOption result ((budget < weight (poly p.now)) ⊎ (depth < nesting (poly p.now)))
        (λ left. (weight (poly p.now) + left ≡ budget) × (nesting (poly p.now) ≤ depth)) }
{
    let mut left = budget;
    for item in p.as_slice() {
        if left == 0 {
            return None;
        }
        left = weigh_factors(&item.atoms, left - 1, depth)?;
    }
    Some(left)
}

/// What is left of the budget without the weight of the factors; None where they weigh more than the budget, or their
/// arguments nest deeper than the depth.
#[cycle(weigh)]
pub fn weigh_factors(us: &Atoms, budget: u32, depth: u32) -> Option<u32>
    ensures { MatchOption result ((budget < weight_of_factors (atoms us.now)) ⊎ (depth < nesting_of_factors (atoms us.now)))
        (λ left. (weight_of_factors (atoms us.now) + left ≡ budget) × (nesting_of_factors (atoms us.now) ≤ depth)) }
{
    let mut left = budget;
    for item in us.as_slice() {
        if left == 0 {
            return None;
        }
        left -= 1;
        if item.args.as_slice().is_empty() {
            continue;
        }
        left = weigh_arguments(&item.args, left, depth)?;
    }
    Some(left)
}

/// What is left of the budget without the weight of the arguments; None where they weigh more than the budget, or nest
/// deeper than the depth. Arguments nest one level deeper than what is in them.
#[cycle(weigh)]
#[inline(never)]
pub fn weigh_arguments(ps: &Polys, budget: u32, depth: u32) -> Option<u32>
    ensures { MatchOption result ((budget < weight_of_arguments (polys ps.now)) ⊎ (depth < nesting_of_arguments (polys ps.now)))
        (λ left. (weight_of_arguments (polys ps.now) + left ≡ budget) × (nesting_of_arguments (polys ps.now) ≤ depth)) }
{
    let mut left = budget;
    for item in ps.as_slice() {
        if depth == 0 {
            return None;
        }
        left = weigh(item, left, depth - 1)?;
    }
    Some(left)
}
