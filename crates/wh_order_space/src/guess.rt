//! From the values of a circuit to the bits of an order that is worth trying.

use std::alloc::{AllocError, Global};
use wh_order_demands::Spot;
use wh_types::{counted, sum};

// Precedences are raised so often at most.
const MOST_ROUNDS: u32 = 100;

/// The bits of a guess at an order, from the values of a circuit. For each symbol the bits of its places are taken as
/// they are. Its precedence says how far symbols go down from it, of which each is greater than the next one. Nothing
/// is promised of the bits.
pub fn guess_by(
    alloc: Global,
    values: &[bool],
    spots: &[Option<Spot>],
    precedence_bits: usize,
) -> Result<Vec<bool>, AllocError> {
    let levels = levels_of(alloc, values, spots)?;
    let mut made = Vec::new(alloc);
    for number in 0..spots.len() {
        if let Some(spot) = spots[number] {
            push_places(values, spot, &mut made)?;
            push_number(level_at(&levels, number), precedence_bits, &mut made)?;
        }
    }
    Ok(made)
}

// How far symbols go down from each of them.
fn levels_of(
    alloc: Global,
    values: &[bool],
    spots: &[Option<Spot>],
) -> Result<Vec<usize>, AllocError> {
    let mut levels = vec![in alloc; 0; spots.len()]?;
    for _ in 0..MOST_ROUNDS {
        if !raise_all(values, spots, &mut levels)? {
            return Ok(levels);
        }
    }
    Ok(levels)
}

// Raises each symbol over those that it is at least; whether one was raised.
fn raise_all(
    values: &[bool],
    spots: &[Option<Spot>],
    levels: &mut Vec<usize>,
) -> Result<bool, AllocError> {
    let mut raised = false;
    for number in 0..spots.len() {
        let level = level_over_all(values, spots, levels.as_slice(), number)?;
        if raise(levels, number, level) {
            raised = true;
        }
    }
    Ok(raised)
}

// Raises the symbol to the level; whether it was lower.
fn raise(levels: &mut Vec<usize>, number: usize, level: usize) -> bool {
    if number < levels.len() && levels[number] < level {
        levels[number] = level;
        true
    } else {
        false
    }
}

// The level of a symbol over those that it is at least.
fn level_over_all(
    values: &[bool],
    spots: &[Option<Spot>],
    levels: &[usize],
    number: usize,
) -> Result<usize, AllocError> {
    let mut level = 0;
    for other in 0..spots.len() {
        let over = level_over(values, spots, levels, number, other)?;
        if level < over {
            level = over;
        }
    }
    Ok(level)
}

// The level of a symbol over one that it is at least.
fn level_over(
    values: &[bool],
    spots: &[Option<Spot>],
    levels: &[usize],
    number: usize,
    other: usize,
) -> Result<usize, AllocError> {
    if !is_at_least(values, spots, number, other)? {
        return Ok(0);
    }
    let level = level_at(levels, other);
    if is_at_least(values, spots, other, number)? {
        return Ok(level);
    }
    Ok(level.saturating_add(1))
}

// Whether the bit is set that one symbol is at least another.
fn is_at_least(
    values: &[bool],
    spots: &[Option<Spot>],
    number: usize,
    other: usize,
) -> Result<bool, AllocError> {
    match spot_at(spots, number) {
        Some(spot) => {
            let bits = sum(spot.places, spot.places)?;
            let behind = sum(spot.first, bits)?;
            let bit = sum(behind, counted(other)?)?;
            Ok(is_set(values, bit))
        }
        None => Ok(false),
    }
}

// Where the bits of the symbol stand, if it has any.
fn spot_at(spots: &[Option<Spot>], number: usize) -> Option<Spot> {
    if number < spots.len() {
        spots[number]
    } else {
        None
    }
}

// The level of the symbol.
fn level_at(levels: &[usize], number: usize) -> usize {
    match levels.get(number) {
        Some(level) => *level,
        None => 0,
    }
}

// The bits of the places of a symbol join.
fn push_places(values: &[bool], spot: Spot, made: &mut Vec<bool>) -> Result<(), AllocError> {
    let bits = sum(spot.places, spot.places)?;
    for place in 0..bits {
        made.push(is_set(values, sum(spot.first, place)?))?;
    }
    Ok(())
}

// The lowest `count` bits of the number join, the lowest one first.
fn push_number(number: usize, count: usize, made: &mut Vec<bool>) -> Result<(), AllocError> {
    let mut left = number;
    for _ in 0..count {
        made.push(left % 2 == 1)?;
        left /= 2;
    }
    Ok(())
}

// Whether the bit with this number is set.
fn is_set(values: &[bool], number: u32) -> bool {
    match values.get(number as usize) {
        Some(value) => *value,
        None => false,
    }
}
