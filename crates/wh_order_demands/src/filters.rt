//! What the bits that write filters have to meet, whatever the order is.

ghost use Rattle.std.specs.Prelude.{◌<◌, IfOk};
ghost use Rattle.wh_order_demands.specs.OrderDemands.{IsFilterDemand, IsItemDemand, IsNoneSet, IsOrderDemand};

use crate::demand::Demand;
use crate::joining::{both, either};
use crate::view::Spot;
use std::alloc::{AllocError, Global};
use wh_types::sum;

// For a symbol with more places nothing is demanded, as there would be too many gates.
const MOST_PLACES: u32 = 32;

/// The demand that no symbol picks two places, and none picks a place and keeps one. The bits of every order meet it.
pub fn demand_of_filters(alloc: Global, spots: &[Option<Spot>]) -> Result<Demand, AllocError>
    ensures { IfOk result (IsOrderDemand spots.now) }
{
    let mut found = Demand::Always;
    for spot in spots {
        let own = filter_of(alloc, *spot)?;
        found = both(alloc, found, own)?;
    }
    Ok(found)
}

// The demand of one symbol's filter, where the symbol has bits; else nothing is demanded.
fn filter_of(alloc: Global, spot: Option<Spot>) -> Result<Demand, AllocError>
    ensures { IfOk result (IsItemDemand spot) }
{
    match spot {
        Some(spot) => one_filter(alloc, spot),
        None => Ok(Demand::Always),
    }
}

// The demand of the filter of the symbol with these bits.
fn one_filter(alloc: Global, spot: Spot) -> Result<Demand, AllocError>
    ensures { IfOk result (IsFilterDemand spot) }
{
    if spot.places > MOST_PLACES {
        return Ok(Demand::Always);
    }
    let mut found = Demand::Always;
    for place in 0..spot.places {
        let own = picked_alone(alloc, spot, place)?;
        found = both(alloc, found, own)?;
    }
    Ok(found)
}

// Where this place is picked, none is kept, and no earlier one is picked.
fn picked_alone(alloc: Global, spot: Spot, place: u32) -> Result<Demand, AllocError>
    requires { place < spot.places }
    ensures { IfOk result (IsFilterDemand spot) }
{
    let picked = sum(spot.places, spot.first)?;
    let bit = sum(picked, place)?;
    let no_keep = none_of(alloc, spot.first, spot.places)?;
    let no_pick = none_of(alloc, picked, place)?;
    let alone = both(alloc, no_keep, no_pick)?;
    either(alloc, Demand::NoBit(bit), alone)
}

/// The demand that none of `count` bits from `first` on is set.
pub fn none_of(alloc: Global, first: u32, count: u32) -> Result<Demand, AllocError>
    ensures { IfOk result (IsNoneSet first count) }
{
    let mut found = Demand::Always;
    for place in 0..count {
        let bit = sum(first, place)?;
        found = both(alloc, found, Demand::NoBit(bit))?;
    }
    Ok(found)
}
