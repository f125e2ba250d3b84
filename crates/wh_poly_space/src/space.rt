//! The space of interpretations that is tried: sums of few monomials with coefficients of at most 3.

ghost use Rattle.std.specs.Prelude.{ℕ, ◌≡◌, ◌<◌, IfOk, get_or, if◌then◌else◌, length};
ghost use Rattle.wh_types.specs.Erase.{ty, tys};
ghost use Rattle.wh_poly.specs.Erase.{atoms, poly, polys};
ghost use Rattle.wh_hopoly.specs.Evaluation.{type_at};
ghost use Rattle.wh_poly.specs.Polynomials.{no_arguments, no_factors, times, zero_poly};
ghost use Rattle.wh_poly.specs.declared.polynomial.Atom.{out-Atom};
ghost use Rattle.wh_poly.specs.declared.polynomial.Monomial.{out-Monomial};
ghost use Rattle.wh_poly_space.specs.Coefficients.{HasCoefficients, capped};
ghost use Rattle.wh_poly_space.specs.Space.{filled, is_sort, sort_variables, sum_of_variables};
ghost use Rattle.wh_poly_space.specs.Spots.{IsSpot, IsUpTo, factors_at};

use crate::places::{place_of, places_of};
use crate::spots::spots_in_order;
use std::alloc::{AllocError, Global};
use wh_poly::{Atom, Atoms, Monomial, Poly, Polys, copy};
use wh_types::SimpleType;

/// The greatest coefficient that is tried.
pub const MAX_COEFFICIENT: u8 = 3;

/// Which variables of the scope a monomial has.
#[derive(Clone, Copy)]
pub enum Spot {
    /// The monomial has no variable.
    Constant,
    /// The monomial has this variable alone.
    One(usize),
    /// The monomial has these two, of which one is of a sort and one functional; the lesser number comes first.
    Two(usize, usize),
}

/// Whether the type is a sort.
pub fn is_sort(kind: &SimpleType) -> bool
    ensures { result ≡ is_sort (ty kind.now) }
{
    matches!(kind, SimpleType::Sort(_))
}

/// The interpretation of a symbol with these types of arguments, by the coefficients of the monomials in the order of
/// the space; those that are missing are 0, and those above 3 count as 3. Where a variable has a number beyond 32 bits
/// the answer is want of memory.
pub fn reading_of(
    alloc: Global,
    scope: &[SimpleType],
    coefficients: &[u8],
) -> Result<Poly, AllocError>
    ensures { IfOk result (λ p. HasCoefficients (tys scope.now) coefficients.now (poly p)) }
{
    let spots = spots_in_order(alloc, scope)?;
    let places = places_of(alloc, scope)?;
    let sum = sum_of_sorts(alloc, scope)?;
    let mut reading = Poly::new(alloc);
    for spot in &spots {
        let coefficient = coefficient_at(coefficients, place_of(&places, *spot));
        if coefficient > 0 {
            let atoms = factors_at(alloc, scope, &sum, *spot)?;
            reading.push(Monomial {
                coefficient: u128::from(coefficient),
                atoms,
            })?;
        }
    }
    Ok(reading)
}

// The coefficient of the monomial with that place.
fn coefficient_at(coefficients: &[u8], place: usize) -> u8
    ensures { (exact : ℕ) → IsUpTo exact place → result ≡ capped (get_or coefficients.now exact 0) }
{
    let count = length_of(coefficients);
    if place < count {
        coefficients[place].min(MAX_COEFFICIENT)
    } else {
        0
    }
}

// How long the list is.
fn length_of(list: &[u8]) -> usize
    ensures { result ≡ length list.now }
{
    list.len()
}

// The factors of the monomial at the spot, where `sum` is that of all variables of a sort.
fn factors_at(
    alloc: Global,
    scope: &[SimpleType],
    sum: &Poly,
    spot: Spot,
) -> Result<Atoms, AllocError>
    requires spot { IsSpot (tys scope.now) spot }
    requires sum { poly sum.now ≡ sum_of_variables (sort_variables (tys scope.now)) }
    ensures { IfOk result (λ us. atoms us ≡ factors_at (tys scope.now) spot) }
{
    let mut atoms = Atoms::new(alloc);
    match spot {
        Spot::Constant => {}
        Spot::One(x) => atoms.push(factor(alloc, scope, sum, x)?)?,
        Spot::Two(x, y) => {
            atoms.push(factor(alloc, scope, sum, x)?)?;
            atoms.push(factor(alloc, scope, sum, y)?)?;
        }
    }
    Ok(atoms)
}

// The variable with its arguments.
fn factor(alloc: Global, scope: &[SimpleType], sum: &Poly, x: usize) -> Result<Atom, AllocError>
    requires { x < length scope.now }
    ensures head { IfOk result (λ u. (out-Atom u).head ≡ x) }
    ensures args { IfOk result (λ u. polys (out-Atom u).args ≡ filled (poly sum.now) (type_at (tys scope.now) x)) }
{
    let head = u32::try_from(x).or(Err(AllocError))?;
    let args = filled(alloc, sum, &scope[x])?;
    Ok(Atom { head, args })
}

// Arguments for the type: the sum for each sort, and 0 for each functional type.
fn filled(alloc: Global, sum: &Poly, kind: &SimpleType) -> Result<Polys, AllocError>
    ensures { IfOk result (λ args. polys args ≡ filled (poly sum.now) (ty kind.now)) }
{
    let mut args = Polys::new(alloc);
    let mut here = kind;
    while let SimpleType::Arrow(first, rest) = here {
        args.push(sum_or_zero(alloc, sum, is_sort(first))?)?;
        here = rest;
    }
    Ok(args)
}

// The sum, or 0.
fn sum_or_zero(alloc: Global, sum: &Poly, asked: bool) -> Result<Poly, AllocError>
    ensures { IfOk result (λ p. poly p ≡ (if asked then poly sum.now else zero_poly)) }
{
    if asked {
        copy(alloc, sum)
    } else {
        Ok(Poly::new(alloc))
    }
}

// The sum of all variables of a sort.
fn sum_of_sorts(alloc: Global, scope: &[SimpleType]) -> Result<Poly, AllocError>
    ensures { IfOk result (λ sum. poly sum ≡ sum_of_variables (sort_variables (tys scope.now))) }
{
    let mut sum = Poly::new(alloc);
    for (x, kind) in scope.iter().enumerate() {
        if is_sort(kind) {
            sum.push(single(alloc, x)?)?;
        }
    }
    Ok(sum)
}

// The variable without arguments, once.
fn single(alloc: Global, x: usize) -> Result<Monomial, AllocError>
    ensures coefficient { IfOk result (λ m. (out-Monomial m).coefficient ≡ 1) }
    ensures factors { IfOk result (λ m. atoms (out-Monomial m).atoms ≡ times x no_arguments no_factors) }
{
    let head = u32::try_from(x).or(Err(AllocError))?;
    let mut atoms = Atoms::new(alloc);
    let args = Polys::new(alloc);
    atoms.push(Atom { head, args })?;
    Ok(Monomial {
        coefficient: 1,
        atoms,
    })
}
