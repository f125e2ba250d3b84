//! Decoding the filter of one symbol from its bits.

ghost use Rattle.std.specs.Prelude.{ℕ, ◌≡◌, ◌↔◌, ◌+◌, ◌*◌, ◌<◌, ◌≤◌, ◌^◌, IfOk, IsTrue, MatchOption, None, Some, slice_get};
ghost use Rattle.wh_types.specs.Erase.{ty, tys};
ghost use Rattle.wh_types.specs.Ty.{sort};
ghost use Rattle.wh_order_inference.specs.Said.{written_filter};
ghost use Rattle.wh_order_node.specs.Filterings.{HasPlaces};
ghost use Rattle.wh_poly_blocking.specs.Sizes.{value_of};
ghost use Rattle.wh_order_space.specs.Bits as written;
ghost use Rattle.wh_order_space.specs.Bits.{number_from, places_from};
ghost use Rattle.wh_find_order.specs.Encodings.{PicksSort};

use std::alloc::{AllocError, Global};
use wh_order_inference::Filter;
use wh_poly_blocking::bit;
use wh_types::{Numbers, SimpleType};

/// The filter that the bits from `from` on write for a symbol with `places` arguments, if they write one.
pub fn filter_by(
    alloc: Global,
    values: &[bool],
    from: usize,
    places: usize,
    precedence_bits: usize,
) -> Result<Option<Filter>, AllocError>
    requires bits { precedence_bits < 32 }
    requires few { from + (2 * places + precedence_bits) < 2 ^ 32 }
    ensures { IfOk result (λ found. MatchOption found
        (written.filter_by (value_of values.now) precedence_bits from places ≡ None)
        (λ filter. written.filter_by (value_of values.now) precedence_bits from places ≡ Some (written_filter filter))) }
{
    let kept = places_by(alloc, values, from, places)?;
    let picked = places_by(alloc, values, places + from, places)?;
    if picked.as_slice().is_empty() {
        let prec = number_by(values, places + (places + from), precedence_bits);
        return Ok(Some(Filter::Keep { prec, places: kept }));
    }
    if kept.as_slice().is_empty() && picked.as_slice().len() == 1 {
        return Ok(Some(Filter::Pick {
            place: picked.as_slice()[0],
        }));
    }
    Ok(None)
}

// The places, counted from 1, whose bits are set, of `count` bits from `from` on.
fn places_by(
    alloc: Global,
    values: &[bool],
    from: usize,
    count: usize,
) -> Result<Numbers, AllocError>
    requires { from + count < 2 ^ 32 }
    ensures { IfOk result (λ made. made ≡ places_from (value_of values.now) from 1 count) }
{
    let mut made = Numbers::new(alloc);
    for place in 0..count {
        if bit(values, from + place) {
            made.push(place as u32 + 1)?;
        }
    }
    Ok(made)
}

/// The number that `count` bits from `from` on write, the lowest one first.
pub fn number_by(values: &[bool], from: usize, count: usize) -> u32
    requires bits { count < 32 }
    requires few { from + count < 2 ^ 32 }
    ensures { result ≡ number_from (value_of values.now) from count }
{
    let mut number = 0;
    let mut left = count;
    while left > 0 {
        left -= 1;
        let low = if bit(values, from + left) { 1 } else { 0 };
        number = low + 2 * number;
    }
    number
}

/// Whether the filter keeps places, or picks one at which a sort stands.
pub fn picks_sort(scope: &[SimpleType], filter: &Filter) -> bool
    requires { HasPlaces (written_filter filter.now) }
    ensures { IsTrue result ↔ PicksSort (tys scope.now) (written_filter filter.now) }
{
    match filter {
        Filter::Keep { .. } => true,
        Filter::Pick { place } => has_sort(scope, *place as usize - 1),
    }
}

// Whether a sort stands at the place.
fn has_sort(scope: &[SimpleType], place: usize) -> bool
    ensures { IsTrue result ↔ ((s : ℕ) × (slice_get (tys scope.now) place ≡ Some (sort s))) }
{
    match scope.get(place) {
        Some(kind) => is_sort(kind),
        None => false,
    }
}

// Whether the type is a sort.
fn is_sort(kind: &SimpleType) -> bool
    ensures { IsTrue result ↔ ((s : ℕ) × (ty kind.now ≡ sort s)) }
{
    matches!(kind, SimpleType::Sort(_))
}
