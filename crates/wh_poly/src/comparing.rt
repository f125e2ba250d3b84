//! The order of polynomials. A walk goes over both lists with one index, and the first difference decides.
//!
//! Most factors have no arguments. So what is done for each factor stands in the walks themselves (`inline`), and what
//! is done for arguments stands in functions of their own. Copies and weights are made in that way too.

ghost use Rattle.std.specs.Prelude.{◌≡◌, IsTrue};
ghost use Rattle.std.specs.declared.cmp.Ordering.TheVariants.{Equal};
ghost use Rattle.wh_poly.specs.Erase.{poly, atoms, polys};
ghost use Rattle.wh_poly.specs.Polynomials.{compare_polynomials, compare_factors, compare_factor, compare_arguments};
ghost use Rattle.wh_poly.specs.declared.polynomial.Atom.{out-Atom};

use crate::polynomial::{Atom, Atoms, Poly, Polys};
use std::cmp::Ordering;

/// The order of two polynomials. Monomials are compared from the first on, each by its factors and then by its
/// coefficient.
#[cycle(order)]
pub fn order(a: &Poly, b: &Poly) -> Ordering
    ensures { result ≡ compare_polynomials (poly a.now) (poly b.now) }
{
    let (items, others) = (a.as_slice(), b.as_slice());
    for (i, item) in items.iter().enumerate() {
        if i == others.len() {
            return Ordering::Greater;
        }
        let other = &others[i];
        let first = order_factors(&item.atoms, &other.atoms);
        let both = first.then(item.coefficient.cmp(&other.coefficient));
        if both.is_ne() {
            return both;
        }
    }
    if items.len() < others.len() {
        Ordering::Less
    } else {
        Ordering::Equal
    }
}

/// The order of two lists of factors. Factors are compared from the first on, each by its variable's number and then by
/// its arguments.
#[cycle(order)]
pub fn order_factors(a: &Atoms, b: &Atoms) -> Ordering
    ensures { result ≡ compare_factors (atoms a.now) (atoms b.now) }
{
    let (items, others) = (a.as_slice(), b.as_slice());
    for (i, item) in items.iter().enumerate() {
        if i == others.len() {
            return Ordering::Greater;
        }
        let other = &others[i];
        if is_same_variable(item, other) {
            continue;
        }
        let first = order_factor(item, other);
        if first.is_ne() {
            return first;
        }
    }
    if items.len() < others.len() {
        Ordering::Less
    } else {
        Ordering::Equal
    }
}

/// Whether the two factors are one variable without arguments, as most factors at a common beginning are.
#[inline(always)]
pub fn is_same_variable(a: &Atom, b: &Atom) -> bool
    ensures { IsTrue result → compare_factor (out-Atom a.now).head (polys (out-Atom a.now).args) (out-Atom b.now).head
        (polys (out-Atom b.now).args) ≡ Equal }
{
    let heads = a.head.cmp(&b.head);
    if heads.is_ne() || !a.args.as_slice().is_empty() {
        return false;
    }
    b.args.as_slice().is_empty()
}

/// The order of two factors alone. The arguments are looked at only where the numbers agree.
#[cycle(order)]
#[inline(always)]
pub fn order_factor(a: &Atom, b: &Atom) -> Ordering
    ensures { result ≡ compare_factor (out-Atom a.now).head (polys (out-Atom a.now).args)
        (out-Atom b.now).head (polys (out-Atom b.now).args) }
{
    let heads = a.head.cmp(&b.head);
    if heads.is_ne() {
        return heads;
    }
    if a.args.as_slice().is_empty() && b.args.as_slice().is_empty() {
        return Ordering::Equal;
    }
    order_arguments(&a.args, &b.args)
}

/// The order of two lists of arguments, from left to right.
#[cycle(order)]
#[inline(never)]
pub fn order_arguments(a: &Polys, b: &Polys) -> Ordering
    ensures { result ≡ compare_arguments (polys a.now) (polys b.now) }
{
    let (items, others) = (a.as_slice(), b.as_slice());
    for (i, item) in items.iter().enumerate() {
        if i == others.len() {
            return Ordering::Greater;
        }
        let first = order(item, &others[i]);
        if first.is_ne() {
            return first;
        }
    }
    if items.len() < others.len() {
        Ordering::Less
    } else {
        Ordering::Equal
    }
}
