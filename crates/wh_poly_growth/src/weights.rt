//! The worth of a polynomial as a number, where two numbers tell what each variable is.

ghost use Rattle.std.specs.Prelude.{◌≡◌, ◌+◌, ◌*◌};
ghost use Rattle.wh_poly.specs.Erase.{poly, atoms, polys};
ghost use Rattle.wh_poly_growth.specs.Weights.{constant_at, factor_at, number, product, saturated, sum};

use wh_poly::{Atoms, Poly, Polys};

/// A variable's value: the constant, and `factor` times the sum of its arguments, each taken where its own arguments
/// are 0.
#[derive(Clone, Copy)]
pub struct Weight {
    /// The constant.
    pub constant: u64,
    /// How many times the sum of the arguments is taken.
    pub factor: u64,
}

/// What the polynomial is worth, where variables without a weight are 0; at most the greatest number of 128 bits.
#[cycle(number_of)]
pub fn number_of(weights: &[Weight], polynomial: &Poly) -> u128
    ensures { result ≡ saturated (number weights.now (poly polynomial.now)) }
{
    let mut total: u128 = 0;
    for item in polynomial.as_slice() {
        let product = product_of(weights, &item.atoms);
        total = total.saturating_add(item.coefficient.saturating_mul(product));
    }
    total
}

// What the product of the factors is worth, at most the greatest number.
#[cycle(number_of)]
fn product_of(weights: &[Weight], factors: &Atoms) -> u128
    ensures { result ≡ saturated (product weights.now (atoms factors.now)) }
{
    let mut product: u128 = 1;
    for item in factors.as_slice() {
        // Once the product is 0 no further factor makes a difference.
        if product == 0 {
            return 0;
        }
        product = product.saturating_mul(value_of(weights, item.head, &item.args));
    }
    product
}

// What the variable is worth at these arguments, at most the greatest number.
#[cycle(number_of)]
fn value_of(weights: &[Weight], variable: u32, arguments: &Polys) -> u128
    ensures { result ≡ saturated (constant_at weights.now variable + factor_at weights.now variable * sum weights.now
        (polys arguments.now)) }
{
    let weight = weight_at(weights, variable);
    // Where the factor is 0 the arguments make no difference.
    if weight.factor == 0 {
        return u128::from(weight.constant);
    }
    let product = u128::from(weight.factor).saturating_mul(sum_of(weights, arguments));
    u128::from(weight.constant).saturating_add(product)
}

// What the sum of the arguments is worth, at most the greatest number.
#[cycle(number_of)]
fn sum_of(weights: &[Weight], arguments: &Polys) -> u128
    ensures { result ≡ saturated (sum weights.now (polys arguments.now)) }
{
    let mut sum: u128 = 0;
    for item in arguments.as_slice() {
        sum = sum.saturating_add(number_of(weights, item));
    }
    sum
}

// The variable's weight.
fn weight_at(weights: &[Weight], variable: u32) -> Weight
    ensures constant { result.constant ≡ constant_at weights.now variable }
    ensures factor { result.factor ≡ factor_at weights.now variable }
{
    match weights.get(variable as usize) {
        Some(weight) => *weight,
        None => Weight {
            constant: 0,
            factor: 0,
        },
    }
}
