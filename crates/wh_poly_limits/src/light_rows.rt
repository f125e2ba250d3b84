//! The rows of a product that are light and come in order. A row is a monomial times a value.

ghost use Rattle.std.specs.Prelude.{◌≡◌, ◌≤◌, IfOk, IfSome};
ghost use Rattle.wh_types.specs.Outcome.{IfBecause};
ghost use Rattle.wh_poly.specs.Erase.{poly, atoms};
ghost use Rattle.wh_poly.specs.Polynomials.{Ordered, OrderedFactors};
ghost use Rattle.wh_poly.specs.Arithmetic.{scale};
ghost use Rattle.wh_poly.specs.Excesses.{ExceedsAs};
ghost use Rattle.wh_poly.specs.declared.polynomial.Monomial.{out-Monomial};

use crate::limits::{MAX_NESTING, MAX_WEIGHT};
use crate::weighing::weigh_factors;
use std::alloc::Global;
use wh_poly::{Excess, Monomial, Poly, arranged, is_ascending};
use wh_types::Or;

/// A monomial times a value, if that is light and comes in order; else it has to be added up. A fault only where the
/// product exceeds a limit.
pub fn light_row(alloc: Global, item: &Monomial, b: &Poly) -> Result<Option<Poly>, Or<Excess>>
    requires positive { 1 ≤ (out-Monomial item.now).coefficient }
    requires left { OrderedFactors (atoms (out-Monomial item.now).atoms) }
    requires right { Ordered (poly b.now) }
    ensures ok { IfOk result (λ row. IfSome row (λ r. poly r
        ≡ scale (out-Monomial item.now).coefficient (atoms (out-Monomial item.now).atoms) (poly b.now))) }
    ensures fault { IfBecause result (λ e. ExceedsAs e
        (scale (out-Monomial item.now).coefficient (atoms (out-Monomial item.now).atoms) (poly b.now))) }
{
    // A heavy row is not made as a whole, since sums of its parts end it early.
    let count = b.as_slice().len().max(1);
    let share = (MAX_WEIGHT as usize / count) as u32;
    if weigh_factors(&item.atoms, share, MAX_NESTING).is_some() {
        let row = arranged(alloc, item, b)?;
        if is_ascending(&row) {
            return Ok(Some(row));
        }
    }
    Ok(None)
}
