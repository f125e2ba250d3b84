//! A scope that grows, inside arguments and under binders, as a chain of frames on the stack: no memory is taken to
//! widen it.

ghost use Rattle.std.specs.Prelude.{◌≡◌, ◌+◌, [], ◌∷◌, length, MatchResult};
ghost use Rattle.wh_types.specs.Erase.{ty};
ghost use Rattle.wh_types.specs.Ty.{arguments};
ghost use Rattle.wh_poly.specs.Polynomials.{HasType};
ghost use Rattle.wh_hopoly.specs.Scopes.{scope_of};

use wh_types::SimpleType;

/// The types of a scope's variables.
#[derive(Clone, Copy)]
pub enum Scope<'a> {
    /// These types.
    Given(&'a [SimpleType]),
    /// The types of a scope, and then the types of the arguments of one more type.
    Wider(&'a Scope<'a>, &'a SimpleType),
    /// The types of a scope, and then one more type.
    Bound(&'a Scope<'a>, &'a SimpleType),
}

/// The type of the variable, or how far past the end of the scope its number is.
pub fn find<'a>(scope: &'a Scope<'a>, variable: usize) -> Result<&'a SimpleType, usize>
    ensures { MatchResult result (λ kind. HasType (scope_of scope.now) variable (ty kind.now))
        (λ past. length (scope_of scope.now) + past ≡ variable) }
{
    match scope {
        Scope::Given(types) => {
            if variable < types.len() {
                Ok(&types[variable])
            } else {
                Err(variable - types.len())
            }
        }
        Scope::Wider(around, kind) => match find(around, variable) {
            Ok(found) => Ok(found),
            Err(past) => find_argument(kind, past),
        },
        Scope::Bound(around, kind) => match find(around, variable) {
            Ok(found) => Ok(found),
            Err(past) => find_single(kind, past),
        },
    }
}

// The type of argument `i`, or how far past the last one it is.
fn find_argument(kind: &SimpleType, i: usize) -> Result<&SimpleType, usize>
    ensures { MatchResult result (λ found. HasType (arguments (ty kind.now)) i (ty found.now))
        (λ past. length (arguments (ty kind.now)) + past ≡ i) }
{
    let mut left = i;
    let mut here = kind;
    while let SimpleType::Arrow(first, rest) = here {
        if left == 0 {
            return Ok(first);
        }
        left -= 1;
        here = rest;
    }
    Err(left)
}

// The type itself where none are past, or how far past it is.
fn find_single(kind: &SimpleType, past: usize) -> Result<&SimpleType, usize>
    ensures { MatchResult result (λ found. HasType (ty kind.now ∷ []) past (ty found.now)) (λ more. 1 + more ≡ past) }
{
    if past == 0 { Ok(kind) } else { Err(past - 1) }
}
