//! The numbering of bits of orders: which bit of a symbol comes first.

ghost use Rattle.std.specs.Prelude.{◌≡◌, ◌+◌, ◌*◌, ◌<◌, ◌≤◌, ◌^◌, ℕ, IfOk, get_or, length};
ghost use Rattle.wh_order_space.specs.Bits.{first_bit};
ghost use Rattle.wh_order_space.specs.Spotted.{types_in};

use std::alloc::{AllocError, Global};
use wh_types::{SimpleType, counted, sum};

/// The numbers of the first bits of symbols whose arguments have these types, where each has `width` bits beside two
/// for each place, and behind them how many bits there are.
///
/// Fails also where there are more bits than a solver has variables.
pub fn first_bits(
    alloc: Global,
    scopes: &[Vec<SimpleType>],
    width: u32,
) -> Result<Vec<u32>, AllocError>
    ensures count { IfOk result (λ made. length made.items ≡ length scopes.now + 1) }
    ensures each { IfOk result (λ made. (n : ℕ) → n ≤ length scopes.now
        → get_or made.items n 0 ≡ first_bit width (types_in scopes.now) n) }
    ensures few { IfOk result (λ made. first_bit width (types_in scopes.now) (length scopes.now) < 2 ^ 32) }
{
    let mut made = Vec::new(alloc);
    let mut total = 0;
    made.push(total)?;
    for scope in scopes {
        total = bits_after(total, scope.len(), width)?;
        made.push(total)?;
    }
    Ok(made)
}

// How many bits there are with one more symbol, which has `places` arguments.
fn bits_after(before: u32, places: usize, width: u32) -> Result<u32, AllocError>
    ensures sum { IfOk result (λ after. after ≡ before + (2 * places + width)) }
    ensures few { IfOk result (λ after. after < 2 ^ 32) }
{
    let places = counted(places)?;
    let of_places = sum(places, places)?;
    let bits = sum(of_places, width)?;
    sum(before, bits)
}
