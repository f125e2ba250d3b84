//! Which symbols a demand compares: a graph of symbols, from which they are left out one by one.

use crate::between::bit_between;
use crate::demand::Demand;
use crate::view::Spot;
use std::alloc::{AllocError, Global};
use wh_types::{counted, is_in, sum};

/// For each symbol the others with which the demand compares it.
pub fn compared_symbols(
    alloc: Global,
    spots: &[Option<Spot>],
    demand: &Demand,
) -> Result<Vec<Vec<u32>>, AllocError> {
    let named = named_bits(alloc, demand, bit_count(spots)?)?;
    let mut near = Vec::new(alloc);
    for number in 0..spots.len() {
        near.push(compared_with(alloc, spots, &named, counted(number)?)?)?;
    }
    Ok(near)
}

// How many bits there are: no symbol has greater ones.
fn bit_count(spots: &[Option<Spot>]) -> Result<u32, AllocError> {
    let symbols = counted(spots.len())?;
    let mut count = 0;
    for spot in spots {
        if let Some(spot) = *spot {
            let of_places = sum(spot.places, spot.places)?;
            let behind = sum(spot.first, sum(of_places, symbols)?)?;
            if count < behind {
                count = behind;
            }
        }
    }
    Ok(count)
}

/// For each of `count` bits whether the demand names it.
pub fn named_bits(alloc: Global, demand: &Demand, count: u32) -> Result<Vec<bool>, AllocError> {
    let mut named = vec![in alloc; false; count as usize]?;
    put_named(demand, &mut named);
    Ok(named)
}

// Marks the bits that the demand names.
fn put_named(demand: &Demand, named: &mut Vec<bool>) {
    match demand {
        Demand::Always | Demand::Never => {}
        Demand::Bit(bit) | Demand::NoBit(bit) => {
            let place = *bit as usize;
            if place < named.len() {
                named[place] = true;
            }
        }
        Demand::Both(left, right) | Demand::Either(left, right) => {
            put_named(left, named);
            put_named(right, named);
        }
    }
}

// The symbols with which one is compared.
fn compared_with(
    alloc: Global,
    spots: &[Option<Spot>],
    named: &[bool],
    symbol: u32,
) -> Result<Vec<u32>, AllocError> {
    let mut list = Vec::new(alloc);
    for number in 0..spots.len() {
        let other = counted(number)?;
        if other != symbol && are_compared(spots, named, symbol, other)? {
            list.push(other)?;
        }
    }
    Ok(list)
}

// Whether one of the two bits is marked that compare the symbols.
fn are_compared(
    spots: &[Option<Spot>],
    named: &[bool],
    left: u32,
    right: u32,
) -> Result<bool, AllocError> {
    let there = bit_between(spots, left, right)?;
    let back = bit_between(spots, right, left)?;
    Ok(is_named(named, there) || is_named(named, back))
}

// Whether the bit is marked, where there is one.
fn is_named(named: &[bool], bit: Option<u32>) -> bool {
    match bit {
        Some(bit) => match named.get(bit as usize) {
            Some(mark) => *mark,
            None => false,
        },
        None => false,
    }
}

/// The symbol with the fewest neighbours among those that are not done; `None` where all are done.
pub fn least_near(near: &[Vec<u32>], done: &[bool]) -> Option<usize> {
    let mut found = None;
    let mut fewest = 0;
    for number in 0..near.len() {
        if !is_done(done, number) {
            let count = count_near(&near[number], done);
            if found.is_none() || count < fewest {
                found = Some(number);
                fewest = count;
            }
        }
    }
    found
}

// How many of these symbols are not done.
fn count_near(near: &[u32], done: &[bool]) -> usize {
    let mut count = 0;
    for symbol in near {
        if !is_done(done, *symbol as usize) {
            count += 1;
        }
    }
    count
}

/// The symbols of the list that are not done.
pub fn open_near(alloc: Global, near: &[u32], done: &[bool]) -> Result<Vec<u32>, AllocError> {
    let mut list = Vec::new(alloc);
    for symbol in near {
        if !is_done(done, *symbol as usize) {
            list.push(*symbol)?;
        }
    }
    Ok(list)
}

// Whether the symbol is done.
fn is_done(done: &[bool], symbol: usize) -> bool {
    match done.get(symbol) {
        Some(mark) => *mark,
        None => false,
    }
}

/// Makes each two of these symbols neighbours.
pub fn join_near(near: &mut Vec<Vec<u32>>, symbols: &[u32]) -> Result<(), AllocError> {
    for left in symbols {
        for right in symbols {
            if left != right {
                add_near(near, *left as usize, *right)?;
            }
        }
    }
    Ok(())
}

// Makes the second symbol a neighbour of the first one.
fn add_near(near: &mut Vec<Vec<u32>>, left: usize, right: u32) -> Result<(), AllocError> {
    if left < near.len() && !is_in(&near[left], right) {
        near[left].push(right)?;
    }
    Ok(())
}
