//! Whether a polynomial is normal. The scope inside arguments is a chain of frames, so no memory is taken.

ghost use Rattle.std.specs.Prelude.{◌↔◌, IsTrue};
ghost use Rattle.wh_types.specs.Erase.{ty, tys};
ghost use Rattle.wh_poly.specs.Erase.{poly, atoms, polys};
ghost use Rattle.wh_hopoly.specs.Scopes.{scope_of};
ghost use Rattle.wh_poly.specs.Polynomials.{Normal, NormalFactors, NormalArguments, HasNormalArguments};
ghost use Rattle.wh_poly.specs.declared.polynomial.Atom.{out-Atom};

use crate::scope::{Scope, find};
use wh_poly::{Atom, Atoms, Poly, Polys, stands_before, stands_not_after};
use wh_types::SimpleType;

/// Whether the polynomial is normal in the scope.
pub fn is_normal(p: &Poly, scope: &[SimpleType]) -> bool
    ensures { IsTrue result ↔ Normal (tys scope.now) (poly p.now) }
{
    is_normal_in(p, &Scope::Given(scope))
}

#[cycle(normal)]
fn is_normal_in<'a>(p: &Poly, scope: &'a Scope<'a>) -> bool
    ensures { IsTrue result ↔ Normal (scope_of scope.now) (poly p.now) }
{
    let items = p.as_slice();
    for (i, item) in items.iter().enumerate() {
        if item.coefficient == 0
            || !are_normal_factors(&item.atoms, scope)
            || !stands_before(&item.atoms, &items[i + 1..])
        {
            return false;
        }
    }
    true
}

// Whether the factors are normal in the scope.
#[cycle(normal)]
fn are_normal_factors<'a>(us: &Atoms, scope: &'a Scope<'a>) -> bool
    ensures { IsTrue result ↔ NormalFactors (scope_of scope.now) (atoms us.now) }
{
    let items = us.as_slice();
    for (i, item) in items.iter().enumerate() {
        if !is_normal_factor(item, scope) || !stands_not_after(item, &items[i + 1..]) {
            return false;
        }
    }
    true
}

// Whether the variable is in the scope, and has normal arguments for its type.
#[cycle(normal)]
fn is_normal_factor<'a>(atom: &Atom, scope: &'a Scope<'a>) -> bool
    ensures { IsTrue result ↔ HasNormalArguments (scope_of scope.now) (out-Atom atom.now).head (polys (out-Atom atom.now).args) }
{
    match find(scope, atom.head as usize) {
        Ok(kind) => are_normal_arguments(&atom.args, kind, scope),
        Err(_) => false,
    }
}

// Whether the arguments are normal for the type in the scope.
#[cycle(normal)]
fn are_normal_arguments<'a>(args: &Polys, kind: &'a SimpleType, scope: &'a Scope<'a>) -> bool
    ensures { IsTrue result ↔ NormalArguments (scope_of scope.now) (ty kind.now) (polys args.now) }
{
    let mut here = kind;
    for item in args.as_slice() {
        match here {
            SimpleType::Sort(_) => return false,
            SimpleType::Arrow(first, rest) => {
                if !is_normal_in(item, &Scope::Wider(scope, first)) {
                    return false;
                }
                here = rest;
            }
        }
    }
    matches!(here, SimpleType::Sort(_))
}
