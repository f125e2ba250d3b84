//! Copies of lists of numbers, of paths and of names, for copies of certificates.

ghost use Rattle.std.specs.Prelude.{◌≡◌, IfOk};
ghost use Rattle.wh_reduction_pairs.specs.TaskData.{numbers_from};
ghost use Rattle.wh_terms.specs.Places.{IsPath};

use std::alloc::{AllocError, Global};
use wh_terms::Path;
use wh_text::Name;
use wh_types::{Blocks, Numbers};

/// Copies the numbers.
pub fn copy_numbers(alloc: Global, numbers: &[u32]) -> Result<Numbers, AllocError>
    ensures { IfOk result (λ copies. copies ≡ numbers.now) }
{
    let mut copies = Numbers::new(alloc);
    for number in numbers {
        copies.push(*number)?;
    }
    Ok(copies)
}

/// The numbers below this one, in order.
#[tactic(auto, using(wh_reduction_pairs::proofs::Numbers::numbers_push))]
pub fn numbers_below(alloc: Global, end: u32) -> Result<Numbers, AllocError>
    ensures { IfOk result (λ numbers. numbers ≡ numbers_from 0 end) }
{
    let mut numbers = Numbers::new(alloc);
    for number in 0..end {
        numbers.push(number)?;
    }
    Ok(numbers)
}

/// Copies the blocks.
pub fn copy_blocks(alloc: Global, blocks: &[Numbers]) -> Result<Blocks, AllocError>
    ensures { IfOk result (λ copies. copies ≡ blocks.now) }
{
    let mut copies = Blocks::new(alloc);
    for block in blocks {
        copies.push(copy_numbers(alloc, block.as_slice())?)?;
    }
    Ok(copies)
}

/// Copies a path.
pub fn copy_path(alloc: Global, path: &[u8]) -> Result<Path, AllocError>
    requires { IsPath path.now }
    ensures { IfOk result (λ copy. copy ≡ path.now) }
{
    let mut copy = Path::new(alloc);
    for turn in path {
        copy.push(*turn)?;
    }
    Ok(copy)
}

/// Copies a name.
pub fn copy_name(alloc: Global, name: &Name) -> Result<Name, AllocError>
    ensures { IfOk result (λ copy. copy ≡ name.now) }
{
    Name::new(alloc, name.bytes())
}
