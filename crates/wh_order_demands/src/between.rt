//! The bit that compares the precedences of two symbols.

ghost use Rattle.std.specs.Prelude.{◌≡◌, IfOk};
ghost use Rattle.wh_order_demands.specs.Claims.{order_bit};
ghost use Rattle.wh_order_demands.specs.OrderDemands.{IsBitBetween};

use crate::view::{Spot, spot_of};
use std::alloc::AllocError;
use wh_types::sum;

/// The bit that the precedence of the first symbol is at least that of the second one, where both have bits.
pub fn bit_between(
    spots: &[Option<Spot>],
    first: u32,
    second: u32,
) -> Result<Option<u32>, AllocError>
    ensures { IfOk result (IsBitBetween spots.now first second) }
{
    match (spot_of(spots, first), spot_of(spots, second)) {
        (Some(spot), Some(_)) => Ok(Some(order_bit(spot, second)?)),
        _ => Ok(None),
    }
}

// The bit that the precedence of the symbol with these bits is at least that of another one.
fn order_bit(spot: Spot, symbol: u32) -> Result<u32, AllocError>
    ensures { IfOk result (λ bit. bit ≡ order_bit spot.places spot.first symbol) }
{
    let picked = sum(spot.places, spot.first)?;
    let behind = sum(spot.places, picked)?;
    sum(behind, symbol)
}
