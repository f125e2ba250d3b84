//! Values with their types, each given by one rule of evaluation: of variables, of symbols, and of applications.

ghost use Rattle.std.specs.Prelude.{◌≡◌, ◌+◌, ◌++◌, length, IfOk};
ghost use Rattle.wh_types.specs.Erase.{ty};
ghost use Rattle.wh_types.specs.Ty.{Ty, arguments};
ghost use Rattle.wh_types.specs.Outcome.{IfBecause};
ghost use Rattle.wh_poly.specs.Erase.{poly};
ghost use Rattle.wh_poly.specs.Polynomials.{HasType, Normal};
ghost use Rattle.wh_poly.specs.Arithmetic.{renumber};
ghost use Rattle.wh_hopoly.specs.Evaluation.{one, type_at, codomain as result_type};
ghost use Rattle.wh_poly.specs.Added.{variable as variable_at};
ghost use Rattle.wh_hopoly.specs.Scopes.{scope_of};
ghost use Rattle.wh_hopoly.specs.Outcomes.{PassesLimit};
ghost use Rattle.wh_hopoly.specs.Replacements.{apply_at, NormalFor};
ghost use Rattle.wh_hopoly.specs.Valued.{Yields, located_at, fault_at as named_fault};

use crate::fault::PolyFault;
use crate::renumbering::raise;
use crate::replacing::apply_one;
use crate::scope::{Scope, find};
use std::alloc::Global;
use wh_poly::{Excess, Poly};
use wh_poly_limits::{check_limits, variable};
use wh_types::{Or, SimpleType};

/// A value, in a scope that goes on with the arguments of its type.
#[derive(Drop)]
pub struct Valued {
    /// The value.
    pub value: Poly,
    /// The type of the value.
    pub kind: SimpleType,
}

/// The value of the variable in the scope, which has `count` variables; a fault only where it exceeds a limit.
pub fn value_of_variable<'a>(
    alloc: Global,
    x: u32,
    scope: &'a Scope<'a>,
    count: u32,
) -> Result<Valued, Or<Excess>>
    requires typed { (A : Ty) × HasType (scope_of scope.now) x A }
    requires counted { count ≡ length (scope_of scope.now) }
    ensures ok { IfOk result (Yields (one (variable_at (type_at (scope_of scope.now) x) (length (scope_of scope.now)) x))
        (type_at (scope_of scope.now) x)) }
    ensures fault { IfBecause result (PassesLimit (one (variable_at (type_at (scope_of scope.now) x) (length (scope_of scope.now)) x))) }
{
    let Ok(kind) = find(scope, x as usize) else {
        unreachable!();
    };
    let value = variable(alloc, kind, count, x)?;
    Ok(Valued {
        value,
        kind: kind.copy(alloc)?,
    })
}

/// The value of a symbol with this reading in a scope of `count` variables; a fault only where it exceeds a limit.
pub fn value_of_symbol(
    alloc: Global,
    kind: &SimpleType,
    reading: &Poly,
    count: u32,
) -> Result<Valued, Or<Excess>>
    ensures ok { IfOk result (Yields (one (renumber (λ i. count + i) (poly reading.now))) (ty kind.now)) }
    ensures fault { IfBecause result (PassesLimit (one (renumber (λ i. count + i) (poly reading.now)))) }
{
    // The reading is tested before it is copied, since the numbers of its variables do not count.
    if let Err(excess) = check_limits(reading) {
        return Err(Or::Because(excess));
    }
    let value = raise(alloc, reading, 0, count)?;
    Ok(Valued {
        value,
        kind: kind.copy(alloc)?,
    })
}

/// The value applied to another one in a scope of `count` variables; a fault only where a value on the way exceeds a
/// limit.
pub fn apply_valued<'a>(
    alloc: Global,
    function: Valued,
    argument: &'a Poly,
    scope: &'a Scope<'a>,
    count: u32,
) -> Result<Valued, Or<Excess>>
    requires counted { count ≡ length (scope_of scope.now) }
    requires function { Normal (scope_of scope.now ++ arguments (ty function.kind)) (poly function.value) }
    requires argument { NormalFor (scope_of scope.now) (ty function.kind) (poly argument.now) }
    ensures ok { IfOk result (Yields (apply_at (ty function.kind) (scope_of scope.now) (poly function.value) (poly argument.now))
        (result_type (ty function.kind))) }
    ensures fault { IfBecause result (PassesLimit (apply_at (ty function.kind) (scope_of scope.now) (poly function.value)
        (poly argument.now))) }
{
    let Valued { value, kind } = function;
    let value = apply_one(alloc, &kind, &*scope, count, &value, &*argument)?;
    Ok(Valued {
        value,
        kind: codomain(kind),
    })
}

// The type of the result of a function of this type.
fn codomain(kind: SimpleType) -> SimpleType
    ensures { ty result ≡ result_type (ty kind) }
{
    match kind {
        SimpleType::Sort(sort) => SimpleType::Sort(sort),
        SimpleType::Arrow(_, rest) => Box::into_inner(rest),
    }
}

/// The answer with its fault, if it has one, at the part with the number `at`.
pub fn located(at: u32, outcome: Result<Valued, Or<Excess>>) -> Result<Valued, Or<PolyFault>>
    ensures { result ≡ located_at at outcome }
{
    match outcome {
        Ok(value) => Ok(value),
        Err(Or::NoMemory) => Err(Or::NoMemory),
        Err(Or::Because(excess)) => Err(Or::Because(fault_at(at, excess))),
    }
}

fn fault_at(at: u32, excess: Excess) -> PolyFault
    ensures { result ≡ named_fault at excess }
{
    match excess {
        Excess::Overflow => PolyFault::Overflow { at },
        Excess::TooLarge => PolyFault::TooLarge { at },
    }
}
