//! What the bits that compare precedences have to meet, whatever the order is.

ghost use Rattle.std.specs.Prelude.{◌≡◌, IfOk};
ghost use Rattle.wh_order_demands.specs.OrderDemands.{IsBitBetween, IsOrderDemand};

use crate::between::bit_between;
use crate::demand::Demand;
use crate::joining::{both, either};
use crate::near::{compared_symbols, join_near, least_near, open_near};
use crate::view::Spot;
use std::alloc::{AllocError, Global};
use wh_types::counted;

// For more symbols than this nothing is demanded, as there would be too many gates.
const MOST_SYMBOLS: usize = 1_000;

// Where each symbol that is left is compared with more symbols than this, nothing more is demanded.
const MOST_NEAR: usize = 40;

/// The demand that precedences are an order, for symbols that a demand compares: of two symbols one has a precedence
/// that is at least the other's, and this is passed on from symbol to symbol. The bits of every order meet it.
///
/// Symbols are left out one by one, the one with the fewest neighbours first, and its neighbours become neighbours of
/// one another: so what is passed on around a ring of symbols is demanded by three of them at a time (as variables are
/// eliminated in sparse systems of equations, Rose 1970).
pub fn demand_of_orders(
    alloc: Global,
    spots: &[Option<Spot>],
    demand: &Demand,
) -> Result<Demand, AllocError>
    ensures { IfOk result (IsOrderDemand spots.now) }
{
    if spots.len() > MOST_SYMBOLS {
        return Ok(Demand::Always);
    }
    let mut near = compared_symbols(alloc, spots, demand)?;
    let mut done = vec![in alloc; false; spots.len()]?;
    let mut found = Demand::Always;
    for _ in 0..spots.len() {
        let Some(symbol) = least_near(&near, &done) else {
            return Ok(found);
        };
        let around = open_around(alloc, &near, &done, symbol)?;
        if around.len() > MOST_NEAR {
            return Ok(found);
        }
        let own = orders_around(alloc, spots, counted(symbol)?, &around)?;
        found = both(alloc, found, own)?;
        join_near(&mut near, &around)?;
        mark(&mut done, symbol);
    }
    Ok(found)
}

// The neighbours of a symbol that are not done.
fn open_around(
    alloc: Global,
    near: &[Vec<u32>],
    done: &[bool],
    symbol: usize,
) -> Result<Vec<u32>, AllocError> {
    match near.get(symbol) {
        Some(list) => open_near(alloc, list, done),
        None => Ok(Vec::new(alloc)),
    }
}

// Marks the symbol, if there is room for a mark.
fn mark(done: &mut Vec<bool>, symbol: usize) {
    if symbol < done.len() {
        done[symbol] = true;
    }
}

// What the precedences of a symbol and of its neighbours meet.
fn orders_around(
    alloc: Global,
    spots: &[Option<Spot>],
    symbol: u32,
    around: &[u32],
) -> Result<Demand, AllocError>
    ensures { IfOk result (IsOrderDemand spots.now) }
{
    let mut found = Demand::Always;
    for second in around {
        let own = orders_between(alloc, spots, around, symbol, *second)?;
        found = both(alloc, found, own)?;
    }
    Ok(found)
}

// Where one of these is the second symbol.
fn orders_between(
    alloc: Global,
    spots: &[Option<Spot>],
    around: &[u32],
    symbol: u32,
    second: u32,
) -> Result<Demand, AllocError>
    ensures { IfOk result (IsOrderDemand spots.now) }
{
    let start = compared(alloc, spots, symbol, second)?;
    let mut found = start;
    for third in around {
        let own = orders_of_three(alloc, spots, symbol, second, *third)?;
        found = both(alloc, found, own)?;
    }
    Ok(found)
}

// What is passed on between three symbols, of which the second one comes before the third.
fn orders_of_three(
    alloc: Global,
    spots: &[Option<Spot>],
    symbol: u32,
    second: u32,
    third: u32,
) -> Result<Demand, AllocError>
    ensures { IfOk result (IsOrderDemand spots.now) }
{
    if second == third {
        return Ok(Demand::Always);
    }
    let from = passed_on(alloc, spots, symbol, second, third)?;
    let through = passed_on(alloc, spots, second, symbol, third)?;
    let to = passed_on(alloc, spots, second, third, symbol)?;
    let rest = both(alloc, through, to)?;
    both(alloc, from, rest)
}

// One of two symbols is at least the other.
fn compared(
    alloc: Global,
    spots: &[Option<Spot>],
    first: u32,
    second: u32,
) -> Result<Demand, AllocError>
    ensures { IfOk result (IsOrderDemand spots.now) }
{
    let there = bit_between(spots, first, second)?;
    let back = bit_between(spots, second, first)?;
    match (there, back) {
        (Some(there), Some(back)) => either(alloc, Demand::Bit(there), Demand::Bit(back)),
        _ => Ok(Demand::Always),
    }
}

// The first is at least the third one, where it is at least the second and that one at least the third.
fn passed_on(
    alloc: Global,
    spots: &[Option<Spot>],
    first: u32,
    second: u32,
    third: u32,
) -> Result<Demand, AllocError>
    ensures { IfOk result (IsOrderDemand spots.now) }
{
    let near = bit_between(spots, first, second)?;
    let next = bit_between(spots, second, third)?;
    let far = bit_between(spots, first, third)?;
    match (near, next, far) {
        (Some(near), Some(next), Some(far)) => {
            let not_both = either(alloc, Demand::NoBit(near), Demand::NoBit(next))?;
            either(alloc, not_both, Demand::Bit(far))
        }
        _ => Ok(Demand::Always),
    }
}
