//! Copies of polynomials in longer scopes: some of the variables get greater numbers.

ghost use Rattle.std.specs.Prelude.{◌≡◌, IfOk};
ghost use Rattle.wh_poly.specs.Erase.{poly, atoms, polys};
ghost use Rattle.wh_poly.specs.Arithmetic.{raised, renumber, renumber_factors, renumber_arguments};

use std::alloc::{AllocError, Global};
use wh_poly::{Atom, Atoms, Monomial, Poly, Polys};

/// The polynomial with the numbers of variables from `from` on raised.
#[cycle(raise)]
pub fn raise(alloc: Global, p: &Poly, from: u32, by: u32) -> Result<Poly, AllocError>
    ensures { IfOk result (λ r. poly r ≡ renumber (raised from by) (poly p.now)) }
{
    let mut copies = Poly::with_capacity(alloc, p.as_slice().len())?;
    for item in p.as_slice() {
        let atoms = raise_factors(alloc, &item.atoms, from, by)?;
        copies.push(Monomial {
            coefficient: item.coefficient,
            atoms,
        })?;
    }
    Ok(copies)
}

/// The factors with the numbers of variables from `from` on raised by `by`.
#[cycle(raise)]
pub fn raise_factors(alloc: Global, us: &Atoms, from: u32, by: u32) -> Result<Atoms, AllocError>
    ensures { IfOk result (λ r. atoms r ≡ renumber_factors (raised from by) (atoms us.now)) }
{
    let mut copies = Atoms::with_capacity(alloc, us.as_slice().len())?;
    for item in us.as_slice() {
        let head = raise_number(item.head, from, by)?;
        let args = raise_arguments(alloc, &item.args, from, by)?;
        copies.push(Atom { head, args })?;
    }
    Ok(copies)
}

/// The arguments with the numbers of variables from `from` on raised by `by`.
#[cycle(raise)]
pub fn raise_arguments(alloc: Global, ps: &Polys, from: u32, by: u32) -> Result<Polys, AllocError>
    ensures { IfOk result (λ r. polys r ≡ renumber_arguments (raised from by) (polys ps.now)) }
{
    let mut copies = Polys::new(alloc);
    for item in ps.as_slice() {
        copies.push(raise(alloc, item, from, by)?)?;
    }
    Ok(copies)
}

// A raised number. Where it exceeds 32 bits there are more variables than memory holds, and the answer is want of
// memory.
fn raise_number(x: u32, from: u32, by: u32) -> Result<u32, AllocError>
    ensures { IfOk result (λ r. r ≡ raised from by x) }
{
    if x < from {
        return Ok(x);
    }
    x.checked_add(by).ok_or(AllocError)
}
