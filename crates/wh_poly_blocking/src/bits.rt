//! Coefficients and the bits that write them: two for each, of which the lower one comes first.

ghost use Rattle.std.specs.Prelude.{◌≡◌, ◌+◌, ◌*◌, ◌<◌, ◌≤◌, ◌^◌, ℕ, IfOk, get_or, length, map};
ghost use Rattle.wh_poly_blocking.specs.Bits as written;
ghost use Rattle.wh_poly_blocking.specs.Sizes.{bits_in, first_of, lists_of, value_of};

use std::alloc::{AllocError, Global};
use wh_poly_space::MAX_COEFFICIENT;

/// The number of the first bit of each scope, where scopes have the given numbers of monomials, and behind them how
/// many bits there are.
///
/// Fails also where there are more bits than a solver has variables.
pub fn first_bits(alloc: Global, sizes: &[usize]) -> Result<Vec<u32>, AllocError>
    ensures count { IfOk result (λ made. length made.items ≡ length sizes.now + 1) }
    ensures each { IfOk result (λ made. (n : ℕ) → n ≤ length sizes.now → get_or made.items n 0 ≡ first_of sizes.now n) }
    ensures few { IfOk result (λ made. first_of sizes.now (length sizes.now) < 2 ^ 32) }
{
    let mut made = Vec::new(alloc);
    let mut total = 0;
    made.push(total)?;
    for size in sizes {
        total = bits_after(total, *size)?;
        made.push(total)?;
    }
    Ok(made)
}

// How many bits there are with `size` further monomials.
fn bits_after(before: u32, size: usize) -> Result<u32, AllocError>
    ensures sum { IfOk result (λ after. after ≡ before + 2 * size) }
    ensures few { IfOk result (λ after. after < 2 ^ 32) }
{
    let size = u32::try_from(size).or(Err(AllocError))?;
    let bits = size.checked_mul(2).ok_or(AllocError)?;
    before.checked_add(bits).ok_or(AllocError)
}

/// The bits that write the coefficients of each list, for as many coefficients as `sizes` says: what is missing is 0,
/// and what is above 3 counts as 3.
pub fn bits_by(alloc: Global, lists: &[Vec<u8>], sizes: &[usize]) -> Result<Vec<bool>, AllocError> {
    let mut values = Vec::new(alloc);
    for (number, size) in sizes.iter().enumerate() {
        match lists.get(number) {
            Some(list) => push_bits(&mut values, list, *size)?,
            None => push_bits(&mut values, &[], *size)?,
        }
    }
    Ok(values)
}

// The bits of the first `size` coefficients of the list join.
fn push_bits(values: &mut Vec<bool>, list: &[u8], size: usize) -> Result<(), AllocError> {
    for place in 0..size {
        let coefficient = list.get(place).copied().unwrap_or(0).min(MAX_COEFFICIENT);
        values.push(coefficient % 2 == 1)?;
        values.push(coefficient >= 2)?;
    }
    Ok(())
}

/// The coefficients that bits write, a list for each scope; bits that are missing are false.
pub fn lists_by(alloc: Global, values: &[bool], sizes: &[usize]) -> Result<Vec<Vec<u8>>, AllocError>
    requires { bits_in sizes.now < 2 ^ 32 }
    ensures { IfOk result (λ made. map (λ l. l.items) made.items ≡ lists_of (value_of values.now) 0 sizes.now) }
{
    let mut made = Vec::new(alloc);
    let mut from = 0;
    for size in sizes {
        made.push(digits(alloc, values, from, *size)?)?;
        from += 2 * *size;
    }
    Ok(made)
}

// The first `count` numbers that the bits from `from` on write.
fn digits(alloc: Global, values: &[bool], from: usize, count: usize) -> Result<Vec<u8>, AllocError>
    requires { from + 2 * count < 2 ^ 32 }
    ensures { IfOk result (λ made. made.items ≡ written.digits (value_of values.now) from count) }
{
    let mut made = Vec::with_capacity(alloc, count)?;
    for place in 0..count {
        made.push(digit(values, from + 2 * place))?;
    }
    Ok(made)
}

// The number that two bits write.
fn digit(values: &[bool], from: usize) -> u8
    requires { from < 2 ^ 32 }
    ensures { result ≡ written.digit (value_of values.now) from }
{
    let low = if bit(values, from) { 1 } else { 0 };
    let high = if bit(values, from + 1) { 2 } else { 0 };
    low + high
}

/// The value of a bit; one that is missing is false.
pub fn bit(values: &[bool], number: usize) -> bool
    ensures { result ≡ value_of values.now number }
{
    match values.get(number) {
        Some(value) => *value,
        None => false,
    }
}
