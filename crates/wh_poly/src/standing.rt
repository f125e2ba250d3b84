//! Order of neighbours: whether a factor or a monomial stands before the next one, as normal forms ask.

ghost use Rattle.std.specs.Prelude.{◌↔◌, IsTrue};
ghost use Rattle.wh_poly.specs.Erase.{poly, atoms, polys, sum_of, product_of};
ghost use Rattle.wh_poly.specs.Polynomials.{MonomialBefore, FactorBefore, Sorted};
ghost use Rattle.wh_poly.specs.declared.polynomial.Atom.{out-Atom};

use crate::comparing::{is_same_variable, order_factor, order_factors};
use crate::polynomial::{Atom, Atoms, Monomial, Poly};

/// Whether the factors stand before those of the first monomial, if there is one.
pub fn stands_before(us: &Atoms, rest: &[Monomial]) -> bool
    ensures { IsTrue result ↔ MonomialBefore (atoms us.now) (sum_of rest.now) }
{
    match rest.first() {
        Some(next) => order_factors(us, &next.atoms).is_lt(),
        None => true,
    }
}

/// Whether the factor does not stand after the first one of the rest.
pub fn stands_not_after(atom: &Atom, rest: &[Atom]) -> bool
    ensures { IsTrue result ↔ FactorBefore (out-Atom atom.now).head (polys (out-Atom atom.now).args) (product_of rest.now) }
{
    match rest.first() {
        Some(next) => is_same_variable(atom, next) || order_factor(atom, next).is_le(),
        None => true,
    }
}

/// Whether each monomial stands before the next. Only the answer yes is claimed.
pub fn is_ascending(p: &Poly) -> bool
    ensures { IsTrue result → Sorted (poly p.now) }
{
    let items = p.as_slice();
    for (i, item) in items.iter().enumerate() {
        if !stands_before(&item.atoms, &items[i + 1..]) {
            return false;
        }
    }
    true
}
