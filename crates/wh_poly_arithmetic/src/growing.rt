//! A product that grows by one value after another. A single monomial is not multiplied in at once: its factors join
//! those of the monomials before it in any order, and what they may still weigh is counted. They are put in order once,
//! and multiplied in once. So the first values of a long product are not copied, compared or weighed anew for each
//! factor.

ghost use Rattle.std.specs.Prelude.{◌≡◌, ◌+◌, ◌*◌, ◌≤◌, ◌<◌, IfOk, OnOk, IfSome, IsTrue};
ghost use Rattle.wh_types.specs.Limits.{greatest_weight};
ghost use Rattle.wh_types.specs.Outcome.{IfBecause};
ghost use Rattle.wh_poly.specs.Erase.{poly, atoms, polys, factors as factors_of};
ghost use Rattle.wh_poly.specs.Polynomials.{Ordered, plus, zero_poly, no_arguments};
ghost use Rattle.wh_poly.specs.Arithmetic.{constant, multiply, atom};
ghost use Rattle.wh_poly.specs.Limits.{weight, Exceeds};
ghost use Rattle.wh_poly.specs.Excesses.{ExceedsAs};
ghost use Rattle.wh_poly.specs.Merges.{joined};
ghost use Rattle.wh_poly_arithmetic.specs.Growing.{grown, HasRoom, HasCoefficientsUpTo, monomial_count};
ghost use Rattle.wh_poly_limits.specs.Rooms.{TakesIn};
ghost use Rattle.wh_poly.specs.declared.polynomial.Monomial.{out-Monomial};

use crate::products::product;
use std::alloc::{AllocError, Global};
use std::mem;
use wh_poly::{
    Atom, Atoms, Excess, Monomial, Poly, Polys, copy, in_order, one_factor, push_copies,
};
use wh_poly_limits::{MAX_NESTING, MAX_WEIGHT, Room, fits, room_for, tested, weigh};
use wh_types::Or;

/// The product so far: a first value times a monomial.
#[derive(Drop)]
pub struct Growing {
    // None stands for 1.
    first: Option<Poly>,
    // The greatest coefficient of the first value.
    greatest: u128,
    coefficient: u128,
    // The factors, in any order.
    factors: Atoms,
    // How much further factors may weigh.
    left: u32,
}

/// The product of no values: the number alone. `count` tells how many factors may come.
pub fn start(alloc: Global, coefficient: u128, count: usize) -> Result<Growing, AllocError>
    requires { 1 ≤ coefficient }
    ensures { IfOk result (λ r. (grown r ≡ constant coefficient) × HasRoom r) }
{
    fits(coefficient);
    // Few have room at once, where they come at all.
    let room = if count > 4 { count } else { 0 };
    let factors = Atoms::with_capacity(alloc, room)?;
    Ok(Growing {
        first: None,
        greatest: 1,
        coefficient,
        factors,
        left: MAX_WEIGHT - 1,
    })
}

/// The product takes in one more value; a fault only where it exceeds a limit.
pub fn multiply_by(alloc: Global, so_far: &mut Growing, value: &Poly) -> Result<(), Or<Excess>>
    requires room { HasRoom so_far.old }
    requires left { Ordered (grown so_far.old) }
    requires right { Ordered (poly value.now) }
    ensures ok { OnOk result ((grown so_far.new ≡ multiply (grown so_far.old) (poly value.now)) × HasRoom so_far.new) }
    ensures fault { IfBecause result (λ e. ExceedsAs e (multiply (grown so_far.old) (poly value.now))) }
{
    let items = value.as_slice();
    if items.len() == 1 {
        let item = &items[0];
        if let Some(head) = plain_variable(item) {
            return multiply_by_variable(alloc, so_far, head);
        }
        if let Some(room) = room_for(so_far.greatest, so_far.coefficient, so_far.left, item) {
            return Ok(extend(alloc, so_far, item, room)?);
        }
    }
    multiply_out(alloc, so_far, value)
}

/// The product takes in one more variable, which has no arguments; a fault only where it exceeds a limit.
pub fn multiply_by_variable(
    alloc: Global,
    so_far: &mut Growing,
    head: u32,
) -> Result<(), Or<Excess>>
    requires room { HasRoom so_far.old }
    requires left { Ordered (grown so_far.old) }
    ensures ok { OnOk result ((grown so_far.new ≡ multiply (grown so_far.old) (atom head no_arguments)) × HasRoom so_far.new) }
    ensures fault { IfBecause result (λ e. ExceedsAs e (multiply (grown so_far.old) (atom head no_arguments))) }
{
    let args = Polys::new(alloc);
    if so_far.left == 0 {
        let value = one_factor(alloc, head, args)?;
        return multiply_out(alloc, so_far, &value);
    }
    so_far.factors.push(Atom { head, args })?;
    so_far.left -= 1;
    Ok(())
}

/// The product.
pub fn finish(alloc: Global, so_far: Growing) -> Result<Poly, AllocError>
    requires { HasRoom so_far }
    ensures { IfOk result (λ r. poly r ≡ grown so_far) }
{
    let Growing {
        first,
        coefficient,
        factors,
        ..
    } = so_far;
    let Some(p) = first else {
        return single(alloc, coefficient, factors);
    };
    if coefficient == 1 && factors.as_slice().is_empty() {
        return Ok(p);
    }
    let last = single(alloc, coefficient, factors)?;
    match product(alloc, &p, &last) {
        Ok(value) => Ok(value),
        Err(Or::NoMemory) => Err(AllocError),
        Err(Or::Because(_)) => unreachable!(),
    }
}

// The variable that the monomial is, if it is one without arguments.
fn plain_variable(item: &Monomial) -> Option<u32>
    ensures { IfSome result (λ head. plus (out-Monomial item.now).coefficient (atoms (out-Monomial item.now).atoms) zero_poly
        ≡ atom head no_arguments) }
{
    let factors = item.atoms.as_slice();
    if item.coefficient != 1 || factors.len() != 1 {
        return None;
    }
    let factor = &factors[0];
    if factor.args.as_slice().is_empty() {
        Some(factor.head)
    } else {
        None
    }
}

// The monomial takes in one more.
fn extend(
    alloc: Global,
    so_far: &mut Growing,
    item: &Monomial,
    room: Room,
) -> Result<(), AllocError>
    requires room { HasRoom so_far.old }
    requires right { Ordered (plus (out-Monomial item.now).coefficient (atoms (out-Monomial item.now).atoms) zero_poly) }
    requires takes { TakesIn so_far.old.greatest so_far.old.coefficient so_far.old.left item.now room }
    ensures { OnOk result ((grown so_far.new ≡ multiply (grown so_far.old)
        (plus (out-Monomial item.now).coefficient (atoms (out-Monomial item.now).atoms) zero_poly)) × HasRoom so_far.new) }
{
    push_copies(alloc, &mut so_far.factors, item.atoms.as_slice())?;
    so_far.coefficient = room.coefficient;
    so_far.left = room.left;
    Ok(())
}

// The product with one more value, multiplied out.
fn multiply_out(alloc: Global, so_far: &mut Growing, value: &Poly) -> Result<(), Or<Excess>>
    requires room { HasRoom so_far.old }
    requires left { Ordered (grown so_far.old) }
    requires right { Ordered (poly value.now) }
    ensures ok { OnOk result ((grown so_far.new ≡ multiply (grown so_far.old) (poly value.now)) × HasRoom so_far.new) }
    ensures fault { IfBecause result (λ e. ExceedsAs e (multiply (grown so_far.old) (poly value.now))) }
{
    if is_one(&*so_far) {
        let same = tested(copy(alloc, value)?)?;
        *so_far = begun(alloc, same)?;
        return Ok(());
    }
    let taken = mem::replace(so_far, start(alloc, 1, 0)?);
    let before = finish(alloc, taken)?;
    let whole = product(alloc, &before, value)?;
    *so_far = begun(alloc, whole)?;
    Ok(())
}

// Whether the product is still 1.
fn is_one(so_far: &Growing) -> bool
    ensures { IsTrue result → grown so_far.now ≡ constant 1 }
{
    if so_far.coefficient != 1 || !so_far.factors.as_slice().is_empty() {
        return false;
    }
    match &so_far.first {
        Some(_) => false,
        None => true,
    }
}

// The value as the first one of a product.
fn begun(alloc: Global, first: Poly) -> Result<Growing, AllocError>
    requires ordered { Ordered (poly first) }
    requires within { Exceeds (poly first) → ⊥ }
    ensures { IfOk result (λ r. (grown r ≡ poly first) × HasRoom r) }
{
    let greatest = greatest_coefficient(&first);
    let left = left_behind(&first);
    fits(greatest);
    let factors = Atoms::new(alloc);
    Ok(Growing {
        first: Some(first),
        greatest,
        coefficient: 1,
        factors,
        left,
    })
}

// The greatest coefficient, 0 where there is none.
fn greatest_coefficient(p: &Poly) -> u128
    ensures { HasCoefficientsUpTo result (poly p.now) }
{
    let mut greatest = 0;
    for item in p.as_slice() {
        greatest = item.coefficient.max(greatest);
    }
    greatest
}

// How much the factors of a monomial may weigh, which each monomial of the value takes in.
fn left_behind(p: &Poly) -> u32
    requires { Exceeds (poly p.now) → ⊥ }
    ensures { weight (poly p.now) + monomial_count (poly p.now) * result ≤ greatest_weight }
{
    let count = p.as_slice().len();
    let Some(left) = weigh(p, MAX_WEIGHT, MAX_NESTING) else {
        unreachable!();
    };
    if count == 0 {
        return left;
    }
    (left as usize / count) as u32
}

// A coefficient times factors as a polynomial.
fn single(alloc: Global, coefficient: u128, factors: Atoms) -> Result<Poly, AllocError>
    ensures { IfOk result (λ r. poly r ≡ plus coefficient (joined (factors_of factors)) zero_poly) }
{
    let atoms = in_order(alloc, factors)?;
    let mut value = Poly::new(alloc);
    value.push(Monomial { coefficient, atoms })?;
    Ok(value)
}
