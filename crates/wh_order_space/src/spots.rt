//! Spots: where the bits of all symbols and marked symbols stand.

ghost use Rattle.std.specs.Prelude.{◌≡◌, ◌+◌, ℕ, IfOk, OnOk, Some, length, slice_get};
ghost use Rattle.wh_order_space.specs.Spotted.{AreSpotted, IsNumber, IsSpotted};

use std::alloc::{AllocError, Global};
use wh_order_demands::Spot;
use wh_types::{SimpleType, counted};

/// Where the bits of each symbol stand. The symbols come first and then the marked symbols, each at the number of its
/// symbol behind them; `None` for a symbol whose mark is not listed.
pub fn spots_of(
    alloc: Global,
    symbols: usize,
    marked: &[u32],
    scopes: &[Vec<SimpleType>],
    first_bits: &[u32],
) -> Result<Vec<Option<Spot>>, AllocError>
    ensures spotted { IfOk result (λ spots. AreSpotted symbols marked.now scopes.now first_bits.now spots.items) }
    ensures count { IfOk result (λ spots. length spots.items ≡ symbols + symbols) }
{
    let mut spots = Vec::new(alloc);
    add_spots(symbols, marked, scopes, first_bits, &mut spots)?;
    add_spots(symbols, marked, scopes, first_bits, &mut spots)?;
    Ok(spots)
}

// The spots of the next `symbols` symbols join.
fn add_spots(
    symbols: usize,
    marked: &[u32],
    scopes: &[Vec<SimpleType>],
    first_bits: &[u32],
    spots: &mut Vec<Option<Spot>>,
) -> Result<(), AllocError>
    ensures spotted { OnOk result (AreSpotted symbols marked.now scopes.now first_bits.now spots.old.items
        → AreSpotted symbols marked.now scopes.now first_bits.now spots.new.items) }
    ensures count { OnOk result (length spots.new.items ≡ length spots.old.items + symbols) }
{
    for _ in 0..symbols {
        let number = number_of(symbols, marked, spots.len());
        spots.push(spot_at(scopes, first_bits, number)?)?;
    }
    Ok(())
}

// The number of the symbol's bits among those of all: a symbol's own, and for a marked one its place behind all
// symbols.
fn number_of(symbols: usize, marked: &[u32], symbol: usize) -> Option<usize>
    ensures { IsNumber symbols marked.now symbol result }
{
    if symbol < symbols {
        Some(symbol)
    } else {
        let place = place_of(marked, symbol - symbols)?;
        symbols.checked_add(place)
    }
}

// The place of the mark in the list.
fn place_of(marked: &[u32], symbol: usize) -> Option<usize>
    ensures { (i : ℕ) → result ≡ Some i → slice_get marked.now i ≡ Some symbol }
{
    for place in 0..marked.len() {
        if marked[place] as usize == symbol {
            return Some(place);
        }
    }
    None
}

// Where the bits with this number stand.
fn spot_at(
    scopes: &[Vec<SimpleType>],
    first_bits: &[u32],
    number: Option<usize>,
) -> Result<Option<Spot>, AllocError>
    ensures { IfOk result (IsSpotted scopes.now first_bits.now number) }
{
    match number {
        None => Ok(None),
        Some(number) => spot_with(scopes, first_bits, number),
    }
}

// Where the bits of the symbol stand whose number among all scopes is known.
fn spot_with(
    scopes: &[Vec<SimpleType>],
    first_bits: &[u32],
    number: usize,
) -> Result<Option<Spot>, AllocError>
    ensures { IfOk result (IsSpotted scopes.now first_bits.now (Some number)) }
{
    if number >= scopes.len() {
        return Ok(None);
    }
    if number >= first_bits.len() {
        return Ok(None);
    }
    let places = counted(scopes[number].len())?;
    let first = first_bits[number];
    Ok(Some(Spot { first, places }))
}
