//! The test that one polynomial is at least another: monomial by monomial, with the same factors.

ghost use Rattle.std.specs.Prelude.{◌↔◌, IsTrue};
ghost use Rattle.wh_poly.specs.Erase.{poly};
ghost use Rattle.wh_poly.specs.Polynomials.{Sorted};
ghost use Rattle.wh_hopoly.specs.Covers.{AtLeast};

use std::cmp::Ordering;
use wh_poly::{Poly, order_factors};

/// Whether `a` has, for each monomial of `b`, one with the same factors and a coefficient that is at least as great.
pub fn at_least(a: &Poly, b: &Poly) -> bool
    requires left { Sorted (poly a.now) }
    requires right { Sorted (poly b.now) }
    ensures { IsTrue result ↔ AtLeast (poly a.now) (poly b.now) }
{
    let (items, others) = (a.as_slice(), b.as_slice());
    // The monomials of both lists increase, so what is passed over on the left stands before all that is left on the
    // right.
    let mut next = 0;
    for item in items {
        if next == others.len() {
            return true;
        }
        let other = &others[next];
        match order_factors(&item.atoms, &other.atoms) {
            Ordering::Less => {}
            Ordering::Equal => {
                if item.coefficient < other.coefficient {
                    return false;
                }
                next += 1;
            }
            Ordering::Greater => return false,
        }
    }
    next == others.len()
}
