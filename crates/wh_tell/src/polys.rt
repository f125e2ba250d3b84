//! Polynomials, as certificates write them.

use crate::text::Text;
use wh_poly::{Atoms, Poly, Polys};

/// Appends a polynomial.
#[cycle(polys)]
pub fn put_poly(text: &mut Text, poly: &Poly) {
    let mut sign: &[u8] = b"";
    for monomial in poly.as_slice() {
        text.spell(sign);
        text.number(monomial.coefficient);
        put_factors(text, &monomial.atoms);
        sign = b"+";
    }
    if poly.as_slice().is_empty() {
        text.say("0");
    }
}

/// Appends factors, a `*` before each.
#[cycle(polys)]
pub fn put_factors(text: &mut Text, factors: &Atoms) {
    for factor in factors.as_slice() {
        text.say("*y");
        text.number(factor.head as u128);
        put_arguments(text, &factor.args);
    }
}

// Appends arguments in parentheses, where there are some.
#[cycle(polys)]
fn put_arguments(text: &mut Text, arguments: &Polys) {
    let mut sign: &[u8] = b"(";
    for argument in arguments.as_slice() {
        text.spell(sign);
        put_poly(text, argument);
        sign = b",";
    }
    if !arguments.as_slice().is_empty() {
        text.say(")");
    }
}
