//! Copies of polynomials, of their factors and of their arguments.

ghost use Rattle.std.specs.Prelude.{◌≡◌, ◌++◌, [], ◌∷◌, IfOk, OnOk};
ghost use Rattle.wh_poly.specs.Erase.{poly, atoms, polys, factors, product_of};

use crate::polynomial::{Atom, Atoms, Monomial, Poly, Polys};
use std::alloc::{AllocError, Global};

/// An equal polynomial.
#[cycle(copy)]
pub fn copy(alloc: Global, p: &Poly) -> Result<Poly, AllocError>
    ensures { IfOk result (λ r. poly r ≡ poly p.now) }
{
    let mut copies = Poly::with_capacity(alloc, p.as_slice().len())?;
    for item in p.as_slice() {
        let atoms = copy_factors(alloc, &item.atoms)?;
        copies.push(Monomial {
            coefficient: item.coefficient,
            atoms,
        })?;
    }
    Ok(copies)
}

/// Equal factors in the same order.
#[cycle(copy)]
pub fn copy_factors(alloc: Global, us: &Atoms) -> Result<Atoms, AllocError>
    ensures { IfOk result (λ r. atoms r ≡ atoms us.now) }
{
    let mut copies = Atoms::with_capacity(alloc, us.as_slice().len())?;
    for item in us.as_slice() {
        let args = copy_arguments(alloc, &item.args)?;
        copies.push(Atom {
            head: item.head,
            args,
        })?;
    }
    Ok(copies)
}

/// Equal arguments in the same order.
#[cycle(copy)]
#[inline(never)]
pub fn copy_arguments(alloc: Global, ps: &Polys) -> Result<Polys, AllocError>
    ensures { IfOk result (λ r. polys r ≡ polys ps.now) }
{
    let mut copies = Polys::new(alloc);
    for item in ps.as_slice() {
        copies.push(copy(alloc, item)?)?;
    }
    Ok(copies)
}

/// A copy of the factor joins at the end.
#[inline(always)]
pub fn push_copy(alloc: Global, us: &mut Atoms, item: &Atom) -> Result<(), AllocError>
    ensures { OnOk result (product_of (factors us.new) ≡ product_of (factors us.old ++ item.now ∷ [])) }
{
    // Most factors have no arguments, and then nothing is called.
    if item.args.as_slice().is_empty() {
        let args = Polys::new(alloc);
        us.push(Atom {
            head: item.head,
            args,
        })?;
        return Ok(());
    }
    let args = copy_arguments(alloc, &item.args)?;
    us.push(Atom {
        head: item.head,
        args,
    })?;
    Ok(())
}

/// Copies of the factors join at the end, in the same order.
pub fn push_copies(alloc: Global, us: &mut Atoms, items: &[Atom]) -> Result<(), AllocError>
    ensures { OnOk result (product_of (factors us.new) ≡ product_of (factors us.old ++ items.now)) }
{
    for item in items {
        push_copy(alloc, us, item)?;
    }
    Ok(())
}
