//! For each symbol and each marked symbol the conditions on whose sides it stands.

use std::alloc::{AllocError, Global};
use wh_poly_guesses::Uses;

/// For each of `count` numbers the conditions that have that symbol on a side.
pub fn holders_of(
    alloc: Global,
    all: &[Uses],
    count: usize,
) -> Result<Vec<Vec<usize>>, AllocError> {
    let mut holders = Vec::new(alloc);
    for _ in 0..count {
        holders.push(Vec::new(alloc))?;
    }
    for (k, uses) in all.iter().enumerate() {
        add_holder(&mut holders, &uses.left, k)?;
        add_holder(&mut holders, &uses.right, k)?;
    }
    Ok(holders)
}

// The condition joins the lists of these numbers, unless it stands last there.
fn add_holder(
    holders: &mut Vec<Vec<usize>>,
    numbers: &[usize],
    condition: usize,
) -> Result<(), AllocError> {
    for number in numbers {
        if *number < holders.len() {
            join(&mut holders[*number], condition)?;
        }
    }
    Ok(())
}

// The number joins the list, unless it stands last there.
fn join(list: &mut Vec<usize>, number: usize) -> Result<(), AllocError> {
    if list.last() != Some(&number) {
        list.push(number)?;
    }
    Ok(())
}
