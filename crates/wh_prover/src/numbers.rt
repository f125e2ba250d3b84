//! Lists of numbers as certificates have them.

ghost use Rattle.std.specs.Prelude.{◌≡◌, IfOk};

use std::alloc::{AllocError, Global};
use wh_types::{Numbers, Ranks};

/// A copy of the numbers as a list of its own.
pub fn numbers_of(alloc: Global, list: &[u32]) -> Result<Numbers, AllocError>
    ensures { IfOk result (λ numbers. numbers ≡ list.now) }
{
    let mut numbers = Numbers::new(alloc);
    for number in list {
        numbers.push(*number)?;
    }
    Ok(numbers)
}

/// The ranks as a list.
pub fn numbers_of_ranks(alloc: Global, ranks: &Ranks) -> Result<Numbers, AllocError>
    ensures { IfOk result (λ numbers. numbers ≡ ranks.now) }
{
    let mut numbers = Numbers::new(alloc);
    for sort in 0..ranks.count() {
        numbers.push(ranks.of(sort))?;
    }
    Ok(numbers)
}
