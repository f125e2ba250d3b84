//! The numbers of the symbols that stand in the conditions.

ghost use Rattle.std.specs.List.{flat_map};
ghost use Rattle.std.specs.Prelude.{◌≡◌, ◌+◌, ◌≤◌, ◌++◌, IfOk, OnOk, length};
ghost use Rattle.wh_poly_blocking.specs.Numbers.{AreNumbers, HaveSame, on_sides};

use std::alloc::{AllocError, Global};
use wh_poly_guesses::Uses;

/// For each condition the numbers of the symbols in it, each once and in order, and at the end those of the symbols in
/// all conditions behind the first `rules`.
pub fn numbers_of_conditions(
    alloc: Global,
    all: &[Uses],
    rules: usize,
) -> Result<Vec<Vec<usize>>, AllocError>
    requires { rules ≤ length all.now }
    ensures { IfOk result (λ made. AreNumbers rules all.now made.items) }
{
    let mut made = Vec::new(alloc);
    for uses in all {
        made.push(numbers_of(alloc, uses)?)?;
    }
    made.push(numbers_of_all(alloc, &all[rules..])?)?;
    Ok(made)
}

// The numbers of the symbols on the two sides.
fn numbers_of(alloc: Global, uses: &Uses) -> Result<Vec<usize>, AllocError>
    ensures { IfOk result (λ made. HaveSame made.items (on_sides uses.now)) }
{
    let mut numbers = Vec::new(alloc);
    add_numbers(&mut numbers, uses)?;
    each_once(&mut numbers);
    Ok(numbers)
}

// The numbers of the symbols in some of the conditions.
fn numbers_of_all(alloc: Global, all: &[Uses]) -> Result<Vec<usize>, AllocError>
    ensures { IfOk result (λ made. HaveSame made.items (flat_map on_sides all.now)) }
{
    let mut numbers = Vec::new(alloc);
    for uses in all {
        add_numbers(&mut numbers, uses)?;
    }
    each_once(&mut numbers);
    Ok(numbers)
}

// The numbers of the symbols on the two sides join.
fn add_numbers(numbers: &mut Vec<usize>, uses: &Uses) -> Result<(), AllocError>
    ensures { OnOk result (numbers.new.items ≡ numbers.old.items ++ on_sides uses.now) }
{
    numbers.extend_from_slice(&uses.left)?;
    numbers.extend_from_slice(&uses.right)?;
    Ok(())
}

// Puts the numbers in order, each once.
fn each_once(numbers: &mut Vec<usize>)
    ensures { HaveSame numbers.new.items numbers.old.items }
{
    numbers.sort_unstable();
    numbers.dedup();
}
