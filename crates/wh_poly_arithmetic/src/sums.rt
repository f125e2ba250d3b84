//! Sums of two polynomials, by merging: the monomials of both move to the sum.

ghost use Rattle.std.specs.Prelude.{◌≡◌, IfOk, IsTrue};
ghost use Rattle.wh_types.specs.Outcome.{IfBecause};
ghost use Rattle.wh_poly.specs.Erase.{poly, sum_of};
ghost use Rattle.wh_poly.specs.Polynomials.{Sorted, Ordered};
ghost use Rattle.wh_poly.specs.Arithmetic.{sum_poly, followed_by};
ghost use Rattle.wh_poly.specs.Limits.{Exceeds};
ghost use Rattle.wh_poly.specs.Excesses.{ExceedsAs};
ghost use Rattle.wh_poly.specs.Merges.{FirstOfSum, EndsBefore};

use std::alloc::{AllocError, Global};
use std::cmp::Ordering;
use std::collections::VecDeque;
use wh_poly::{Excess, Monomial, Poly, order_factors, stands_before};
use wh_poly_limits::{add_first, tested};
use wh_types::Or;

/// The sum of two values; a fault only where it exceeds a limit.
pub fn sum(alloc: Global, a: Poly, b: Poly) -> Result<Poly, Or<Excess>>
    requires left { Sorted (poly a) }
    ensures ok { IfOk result (λ r. (poly r ≡ sum_poly (poly a) (poly b)) × (Exceeds (poly r) → ⊥)) }
    ensures fault { IfBecause result (λ e. ExceedsAs e (sum_poly (poly a) (poly b))) }
{
    tested(merge(alloc, a, b)?)
}

/// The sum, whatever its weight. Values that come in order, one wholly behind the other, are not compared item by item.
pub fn sum_of_ordered(alloc: Global, a: Poly, b: Poly) -> Result<Poly, Or<Excess>>
    requires left { Ordered (poly a) }
    requires right { Ordered (poly b) }
    ensures ok { IfOk result (λ r. poly r ≡ sum_poly (poly a) (poly b)) }
    ensures fault { IfBecause result (λ e. ExceedsAs e (sum_poly (poly a) (poly b))) }
{
    if ends_before(&b, &a) {
        return Ok(appended(b, a)?);
    }
    if ends_before(&a, &b) {
        return Ok(appended(a, b)?);
    }
    merge(alloc, a, b)
}

// Whether the last monomial stands before the first one of the other value.
fn ends_before(a: &Poly, b: &Poly) -> bool
    ensures { IsTrue result → EndsBefore (poly a.now) (poly b.now) }
{
    let items = a.as_slice();
    let count = items.len();
    if count == 0 {
        return true;
    }
    let last = &items[count - 1];
    stands_before(&last.atoms, b.as_slice())
}

// The monomials of both, in this order.
fn appended(a: Poly, b: Poly) -> Result<Poly, AllocError>
    ensures { IfOk result (λ r. poly r ≡ followed_by (poly a) (poly b)) }
{
    let mut whole = a;
    whole.append(b)?;
    Ok(whole)
}

// The sum, whatever its weight.
fn merge(alloc: Global, a: Poly, b: Poly) -> Result<Poly, Or<Excess>>
    requires left { Sorted (poly a) }
    ensures ok { IfOk result (λ r. poly r ≡ sum_poly (poly a) (poly b)) }
    ensures fault { IfBecause result (λ e. ExceedsAs e (sum_poly (poly a) (poly b))) }
{
    let count = a.as_slice().len().saturating_add(b.as_slice().len());
    let mut out = Poly::with_capacity(alloc, count)?;
    let mut xs = a.into_queue();
    let mut ys = b.into_queue();
    while let Some(item) = next_of_sum(&mut xs, &mut ys)? {
        out.push(item)?;
    }
    Ok(out)
}

// The first monomial of the sum leaves the queues, if there is one.
fn next_of_sum(
    xs: &mut VecDeque<Monomial>,
    ys: &mut VecDeque<Monomial>,
) -> Result<Option<Monomial>, Or<Excess>>
    requires left { Sorted (sum_of xs.old.items) }
    ensures ok { IfOk result (λ first. FirstOfSum xs.old.items ys.old.items xs.new.items ys.new.items first) }
    ensures fault { IfBecause result (λ e. ExceedsAs e (sum_poly (sum_of xs.old.items) (sum_of ys.old.items))) }
{
    let Some(x) = xs.front() else {
        return Ok(ys.pop_front());
    };
    let Some(y) = ys.front() else {
        return Ok(xs.pop_front());
    };
    match order_factors(&x.atoms, &y.atoms) {
        Ordering::Less => Ok(xs.pop_front()),
        Ordering::Equal => match add_first(xs, ys) {
            Some(item) => Ok(Some(item)),
            None => Err(Or::Because(Excess::Overflow)),
        },
        Ordering::Greater => Ok(ys.pop_front()),
    }
}
