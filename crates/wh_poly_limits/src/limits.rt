//! The test of a value against the limits: coefficients below 2^128, weight at most 65,536, arguments nested at most
//! 400 deep.

ghost use Rattle.std.specs.Prelude.{◌≡◌, ◌<◌, ◌^◌, IfOk, MatchResult};
ghost use Rattle.wh_types.specs.Limits.{coefficient_end};
ghost use Rattle.wh_types.specs.Outcome.{IfBecause};
ghost use Rattle.wh_poly.specs.Erase.{poly};
ghost use Rattle.wh_poly.specs.Limits.{Overflows, Exceeds};
ghost use Rattle.wh_poly.specs.Excesses.{ExceedsAs};

use crate::weighing::weigh;
use wh_poly::{Excess, Poly};
use wh_types::Or;

/// The greatest weight of a value.
pub const MAX_WEIGHT: u32 = 65_536;
/// How deep the arguments of a value may nest.
pub const MAX_NESTING: u32 = 400;

/// Whether the value is within the limits, or the limit that it exceeds.
pub fn check_limits(p: &Poly) -> Result<(), Excess>
    ensures { MatchResult result (λ _. Exceeds (poly p.now) → ⊥) (λ e. ExceedsAs e (poly p.now)) }
{
    coefficients_fit(p);
    match weigh(p, MAX_WEIGHT, MAX_NESTING) {
        Some(_) => Ok(()),
        None => Err(Excess::TooLarge),
    }
}

/// The value, where it is within the limits; else the limit that it exceeds.
pub fn tested(value: Poly) -> Result<Poly, Or<Excess>>
    ensures ok { IfOk result (λ r. (poly r ≡ poly value) × (Exceeds (poly r) → ⊥)) }
    ensures fault { IfBecause result (λ e. ExceedsAs e (poly value)) }
{
    match check_limits(&value) {
        Ok(()) => Ok(value),
        Err(excess) => Err(Or::Because(excess)),
    }
}

/// No coefficient that is stored overflows: a walk that does nothing at run time.
pub fn coefficients_fit(p: &Poly)
    ensures { Overflows (poly p.now) → ⊥ }
{
    for item in p.as_slice() {
        fits(item.coefficient);
    }
}

/// A number of 128 bits is below 2^128.
pub fn fits(coefficient: u128)
    ensures { coefficient < coefficient_end }
{
    let _ = coefficient;
}
