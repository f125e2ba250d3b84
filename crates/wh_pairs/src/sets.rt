//! Sets of pairs, made from lists of their numbers: sorted, each number once.

ghost use Rattle.std.specs.Prelude.{◌≡◌, ◌↔◌, ◌<◌, ℕ, All, Contains, IfOk, IsTrue};
ghost use Rattle.std.specs.List.Sorted.{IsNonDecreasing};
ghost use Rattle.wh_pairs.specs.PairData.{IsIncreasing};
ghost use Rattle.wh_pairs.specs.Sets.{IsKept, IsSetOf};

use crate::pair::PairSet;
use std::alloc::{AllocError, Global};

/// The set of the numbers below `count`.
pub fn numbers_below(alloc: Global, count: u32) -> Result<PairSet, AllocError>
    ensures { IfOk result (IsSetOf (λ n. n < count)) }
{
    let mut set = PairSet::new(alloc);
    for number in 0..count {
        set.push(number)?;
    }
    Ok(set)
}

/// The set of the numbers of a list, in time `n log n`.
pub fn set_of(alloc: Global, list: &[u32]) -> Result<PairSet, AllocError>
    ensures { IfOk result (IsSetOf (Contains list.now)) }
{
    let mut sorted = Vec::from_slice(alloc, list)?;
    sorted.sort_unstable();
    distinct(alloc, &sorted)
}

// The set of the numbers of a list in which they do not fall.
fn distinct(alloc: Global, sorted: &[u32]) -> Result<PairSet, AllocError>
    requires { IsNonDecreasing sorted.now }
    ensures { IfOk result (IsSetOf (Contains sorted.now)) }
{
    let mut set = PairSet::new(alloc);
    for number in sorted {
        if is_above(&set, *number) {
            set.push(*number)?;
        }
    }
    Ok(set)
}

// Whether the number is above all of the set.
fn is_above(set: &PairSet, number: u32) -> bool
    ensures { IsTrue result ↔ All (λ n. n < number) set.now }
{
    match set.as_slice().last() {
        Some(last) => *last < number,
        None => true,
    }
}

/// The pairs of the set that are not dropped.
pub fn kept(alloc: Global, set: &PairSet, drop: &[u32]) -> Result<PairSet, AllocError>
    ensures { IfOk result (IsSetOf (IsKept set.now drop.now)) }
{
    let dropped = set_of(alloc, drop)?;
    let mut rest = PairSet::new(alloc);
    for number in set.as_slice() {
        if dropped.as_slice().binary_search(number).is_err() {
            rest.push(*number)?;
        }
    }
    Ok(rest)
}

/// Whether each number is above the one before.
pub fn is_increasing(numbers: &[u32]) -> bool
    ensures { IsTrue result ↔ IsIncreasing numbers.now }
{
    for i in 1..numbers.len() {
        if numbers[i - 1] >= numbers[i] {
            return false;
        }
    }
    true
}
