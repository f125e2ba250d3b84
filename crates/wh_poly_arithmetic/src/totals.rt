//! Sums of many polynomials. Partial sums are added two by two, so that each monomial takes part in few merges. Each
//! value is weighed once: as long as all values together are light enough, so is each sum of some of them.

ghost use Rattle.std.specs.Prelude.{◌≡◌, [], IfOk, OnOk};
ghost use Rattle.wh_types.specs.Outcome.{IfBecause};
ghost use Rattle.wh_poly.specs.Erase.{poly};
ghost use Rattle.wh_poly.specs.Polynomials.{Ordered, zero_poly};
ghost use Rattle.wh_poly.specs.Arithmetic.{sum_poly};
ghost use Rattle.wh_poly.specs.Limits.{Exceeds};
ghost use Rattle.wh_poly.specs.Excesses.{ExceedsAs};
ghost use Rattle.wh_poly_arithmetic.specs.Totals.{IsTakenFrom};

use crate::sums::sum_of_ordered;
use std::alloc::Global;
use wh_poly::{Excess, Poly};
use wh_poly_limits::{MAX_NESTING, MAX_WEIGHT, coefficients_fit, tested, weigh};
use wh_types::Or;

/// A sum that grows by one value at a time.
#[derive(Drop)]
pub struct Total {
    parts: Vec<Poly>,
    count: u64,
    // What all parts leave of the greatest weight; None where that is not known.
    left: Option<u32>,
}

impl Total {
    ghost use Rattle.wh_poly_arithmetic.specs.Totals.{total, HasOrderedParts, TakesLast, Leaves};

    /// Nothing is added yet.
    pub fn new(alloc: Global) -> Total
        ensures same { total result ≡ zero_poly }
        ensures ordered { HasOrderedParts result }
    {
        Total {
            parts: Vec::new(alloc),
            count: 0,
            left: Some(MAX_WEIGHT),
        }
    }

    /// The value is added; a fault only where the sum exceeds a limit.
    pub fn add(&mut self, alloc: Global, value: Poly) -> Result<(), Or<Excess>>
        requires value { Ordered (poly value) }
        requires parts { HasOrderedParts self.old }
        ensures ok { OnOk result ((total self.new ≡ sum_poly (poly value) (total self.old)) × HasOrderedParts self.new) }
        ensures fault { IfBecause result (λ e. ExceedsAs e (sum_poly (poly value) (total self.old))) }
    {
        self.left = left_without(self.left, &value);
        // As many parts are taken as the count ends in ones, so parts of about equal weight are added.
        let mut left = self.count;
        let mut carried = value;
        while left % 2 == 1 {
            left /= 2;
            carried = self.add_last(alloc, carried)?;
        }
        self.count = self.count.wrapping_add(1);
        self.parts.push(carried)?;
        Ok(())
    }

    /// The sum of all values; a fault only where it exceeds a limit.
    pub fn finish(self, alloc: Global) -> Result<Poly, Or<Excess>>
        requires { HasOrderedParts self }
        ensures ok { IfOk result (λ r. (poly r ≡ total self) × (Exceeds (poly r) → ⊥)) }
        ensures fault { IfBecause result (λ e. ExceedsAs e (total self)) }
    {
        let mut rest = self;
        let Some(last) = rest.parts.pop() else {
            return Ok(Poly::new(alloc));
        };
        let mut value = rest.within(last)?;
        while !rest.parts.is_empty() {
            value = rest.add_last(alloc, value)?;
        }
        Ok(value)
    }

    // The value and the last part, if there is one.
    fn add_last(&mut self, alloc: Global, value: Poly) -> Result<Poly, Or<Excess>>
        requires value { Ordered (poly value) }
        requires parts { HasOrderedParts self.old }
        requires weighed { Leaves self.old.left (poly value) self.old.parts.items }
        ensures ok { IfOk result (λ r. TakesLast self.old self.new (poly value) (poly r)) }
        ensures fault { IfBecause result (λ e. ExceedsAs e (sum_poly (poly value) (total self.old))) }
    {
        let Some(part) = self.parts.pop() else {
            return Ok(value);
        };
        let sum = sum_of_ordered(alloc, value, part)?;
        self.within(sum)
    }

    // The value, if it is within the limits; it is weighed only where it may be too heavy.
    fn within(&self, value: Poly) -> Result<Poly, Or<Excess>>
        requires { Leaves self.now.left (poly value) [] }
        ensures ok { IfOk result (λ r. (poly r ≡ poly value) × (Exceeds (poly r) → ⊥)) }
        ensures fault { IfBecause result (λ e. ExceedsAs e (poly value)) }
    {
        match self.left {
            Some(_) => {
                coefficients_fit(&value);
                Ok(value)
            }
            None => tested(value),
        }
    }
}

// What is left of a weight without the value. None where no weight is known, or the value weighs more, or it nests too
// deep.
fn left_without(left: Option<u32>, value: &Poly) -> Option<u32>
    ensures { IsTakenFrom left (poly value.now) result }
{
    weigh(value, left?, MAX_NESTING)
}
