//! Room in a product of monomials: what it becomes with one more, where that surely stays within the limits.

ghost use Rattle.std.specs.Prelude.{IfSome};
ghost use Rattle.wh_poly_limits.specs.Rooms.{TakesIn};

use crate::limits::{MAX_NESTING, fits};
use crate::weighing::weigh_factors;
use wh_poly::Monomial;

/// What a product of monomials becomes when it takes in one more.
#[derive(Clone, Copy)]
pub struct Room {
    /// The coefficient of the product.
    pub coefficient: u128,
    /// How much further factors of the product may weigh.
    pub left: u32,
}

/// The product of a monomial with this coefficient, whose further factors may weigh `left`, and of `item`. `None`
/// unless it is sure that the product times a value, whose greatest coefficient is `greatest`, stays within the limits.
pub fn room_for(greatest: u128, coefficient: u128, left: u32, item: &Monomial) -> Option<Room>
    ensures { IfSome result (TakesIn greatest coefficient left item.now) }
{
    let coefficient = coefficient.checked_mul(item.coefficient)?;
    fits(greatest.checked_mul(coefficient)?);
    let left = weigh_factors(&item.atoms, left, MAX_NESTING)?;
    Some(Room { coefficient, left })
}
