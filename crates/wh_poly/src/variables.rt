//! The variables that a type adds to a scope: one for each of its arguments, as polynomials of their own.

ghost use Rattle.std.specs.Prelude.{◌≡◌, ◌+◌, length, IfOk};
ghost use Rattle.wh_types.specs.Erase.{ty};
ghost use Rattle.wh_types.specs.Ty.{arguments};
ghost use Rattle.wh_poly.specs.Erase.{poly, polys};
ghost use Rattle.wh_poly.specs.Arithmetic.{atom};
ghost use Rattle.wh_poly.specs.Added.{added as added_variables};

use crate::polynomial::{Atom, Atoms, Monomial, Poly, Polys};
use std::alloc::{AllocError, Global};
use wh_types::SimpleType;

/// One variable for each argument of the type, numbered from `first`, as arguments in a scope of `count` variables.
/// Their size is exponential in the depth of the type, so callers weigh them before they ask for them.
pub fn added(alloc: Global, kind: &SimpleType, count: u32, first: u32) -> Result<Polys, AllocError>
    ensures { IfOk result (λ r. polys r ≡ added_variables (ty kind.now) count first) }
{
    let mut out = Polys::new(alloc);
    let mut x = first;
    let mut here = kind;
    while let SimpleType::Arrow(argument, rest) = here {
        let inner = with_arguments(count, argument)?;
        let args = added(alloc, argument, inner, count)?;
        out.push(one_factor(alloc, x, args)?)?;
        x = x.checked_add(1).ok_or(AllocError)?;
        here = rest;
    }
    Ok(out)
}

/// A variable with arguments as a polynomial.
pub fn one_factor(alloc: Global, head: u32, args: Polys) -> Result<Poly, AllocError>
    ensures { IfOk result (λ r. poly r ≡ atom head (polys args)) }
{
    let mut atoms = Atoms::new(alloc);
    atoms.push(Atom { head, args })?;
    let mut value = Poly::new(alloc);
    value.push(Monomial {
        coefficient: 1,
        atoms,
    })?;
    Ok(value)
}

/// The number of variables of a scope once the arguments of the type join it. Where it exceeds 32 bits the answer is
/// want of memory.
pub fn with_arguments(count: u32, kind: &SimpleType) -> Result<u32, AllocError>
    ensures { IfOk result (λ r. r ≡ count + length (arguments (ty kind.now))) }
{
    let mut more = count;
    let mut here = kind;
    while let SimpleType::Arrow(_, rest) = here {
        more = more.checked_add(1).ok_or(AllocError)?;
        here = rest;
    }
    Ok(more)
}
