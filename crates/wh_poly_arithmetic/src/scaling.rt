//! A monomial times a value: a row of a product. Where the row is heavy, or does not come in order, its products are
//! added one by one.

ghost use Rattle.std.specs.Prelude.{◌≡◌, ◌≤◌, IfOk};
ghost use Rattle.wh_types.specs.Outcome.{IfBecause};
ghost use Rattle.wh_poly.specs.Erase.{poly, atoms};
ghost use Rattle.wh_poly.specs.Polynomials.{Ordered, OrderedFactors};
ghost use Rattle.wh_poly.specs.Arithmetic.{scale};
ghost use Rattle.wh_poly.specs.Excesses.{ExceedsAs};
ghost use Rattle.wh_poly.specs.declared.polynomial.Monomial.{out-Monomial};

use crate::totals::Total;
use std::alloc::Global;
use wh_poly::{Excess, Monomial, Poly, multiple, single_product};
use wh_poly_limits::light_row;
use wh_types::Or;

/// A monomial times a value.
pub fn row_of_product(alloc: Global, item: &Monomial, b: &Poly) -> Result<Poly, Or<Excess>>
    requires positive { 1 ≤ (out-Monomial item.now).coefficient }
    requires left { OrderedFactors (atoms (out-Monomial item.now).atoms) }
    requires right { Ordered (poly b.now) }
    ensures ok { IfOk result (λ r. poly r ≡ scale (out-Monomial item.now).coefficient (atoms (out-Monomial item.now).atoms) (poly b.now)) }
    ensures fault { IfBecause result (λ e. ExceedsAs e
        (scale (out-Monomial item.now).coefficient (atoms (out-Monomial item.now).atoms) (poly b.now))) }
{
    if item.atoms.as_slice().is_empty() {
        return multiple(alloc, item, b);
    }
    if let Some(row) = light_row(alloc, item, b)? {
        return Ok(row);
    }
    sum_of_products(alloc, item, b)
}

// The sum of the monomial times each monomial of the value.
fn sum_of_products(alloc: Global, item: &Monomial, b: &Poly) -> Result<Poly, Or<Excess>>
    requires positive { 1 ≤ (out-Monomial item.now).coefficient }
    requires left { OrderedFactors (atoms (out-Monomial item.now).atoms) }
    requires right { Ordered (poly b.now) }
    ensures ok { IfOk result (λ r. poly r ≡ scale (out-Monomial item.now).coefficient (atoms (out-Monomial item.now).atoms) (poly b.now)) }
    ensures fault { IfBecause result (λ e. ExceedsAs e
        (scale (out-Monomial item.now).coefficient (atoms (out-Monomial item.now).atoms) (poly b.now))) }
{
    let others = b.as_slice();
    let mut total = Total::new(alloc);
    let mut j = others.len();
    while j > 0 {
        j -= 1;
        let single = single_product(alloc, item, &others[j])?;
        total.add(alloc, single)?;
    }
    total.finish(alloc)
}
