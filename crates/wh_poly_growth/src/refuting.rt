//! Numbers that show that no moves cover one polynomial by another. The search in ranges asks for them. All variables
//! are 0, or one of them is 10^6 and the others are 0; each time the arguments of functional ones have 0, 1 or 10^6 as
//! their factor. No types are looked up for that.

ghost use Rattle.std.specs.Bool.{OnTrue};
ghost use Rattle.std.specs.Prelude.{◌≡◌, IfOk, length};
ghost use Rattle.wh_poly.specs.Erase.{poly};
ghost use Rattle.wh_poly_growth.specs.Refuted.{IsRefuted, IsTooSmall};
ghost use Rattle.wh_poly_growth.specs.Weights.{number};

use crate::weights::{Weight, number_of};
use std::alloc::{AllocError, Global};
use wh_poly::{Atoms, Poly};

// A number that is great beside those of most polynomials; a product of six of them fits 128 bits.
const GREAT: u64 = 1_000_000;

/// Whether under some of a few weights, for `variables` variables, the left polynomial is worth less than the right
/// one, or, where it is to be greater, no more. Each worth is computed up to the greatest number of 128 bits, and a
/// left one of that number shows nothing.
pub fn is_refuted(
    alloc: Global,
    left: &Poly,
    right: &Poly,
    variables: usize,
    strict: bool,
) -> Result<bool, AllocError>
    ensures { IfOk result (λ told. OnTrue told (IsRefuted variables (poly left.now) (poly right.now) strict)) }
{
    let nothing = Weight {
        constant: 0,
        factor: 0,
    };
    let mut weights = vec![in alloc; nothing; variables]?;
    if is_refuted_by(&mut weights, 0, left, right, strict) {
        return Ok(true);
    }
    // Without arguments the factors of weights make no difference.
    if !has_arguments(left) && !has_arguments(right) {
        return Ok(false);
    }
    for factor in [1, GREAT] {
        if is_refuted_by(&mut weights, factor, left, right, strict) {
            return Ok(true);
        }
    }
    Ok(false)
}

// Whether weights of this factor refute, with constants of 0, or all but one.
fn is_refuted_by(
    weights: &mut [Weight],
    factor: u64,
    left: &Poly,
    right: &Poly,
    strict: bool,
) -> bool
    ensures refuted { OnTrue result (IsRefuted (length weights.old) (poly left.now) (poly right.now) strict) }
    ensures size { length weights.new ≡ length weights.old }
{
    let base = Weight {
        constant: 0,
        factor,
    };
    weights.fill(base);
    if is_too_small(weights, left, right, strict) {
        return true;
    }
    for variable in 0..weights.len() {
        weights[variable].constant = GREAT;
        if is_too_small(weights, left, right, strict) {
            return true;
        }
        weights[variable].constant = 0;
    }
    false
}

// Whether by these weights the left polynomial is worth too little.
fn is_too_small(weights: &[Weight], left: &Poly, right: &Poly, strict: bool) -> bool
    ensures { OnTrue result (IsTooSmall (number weights.now (poly left.now)) (number weights.now (poly right.now)) strict) }
{
    let given = number_of(weights, left);
    let taken = number_of(weights, right);
    if strict {
        // At the greatest number the left polynomial may be worth more than is told.
        given <= taken && given < u128::MAX
    } else {
        given < taken
    }
}

// Whether some factor has arguments.
fn has_arguments(p: &Poly) -> bool {
    for item in p.as_slice() {
        if takes_arguments(&item.atoms) {
            return true;
        }
    }
    false
}

// Whether one of the factors has arguments.
fn takes_arguments(us: &Atoms) -> bool {
    for item in us.as_slice() {
        if !item.args.as_slice().is_empty() {
            return true;
        }
    }
    false
}
