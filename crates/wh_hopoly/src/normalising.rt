//! The normal form of an expression: its value by the rules of evaluation, which stop at the first value that exceeds a
//! limit. `normal` is for an expression, `normal_call` for a further function, such as that of a marked symbol, applied
//! to expressions.

ghost use Rattle.std.specs.Prelude.{◌≡◌, ◌++◌, ◌∷◌, [], map, length, IfOk};
ghost use Rattle.wh_types.specs.Erase.{ty};
ghost use Rattle.wh_types.specs.Outcome.{IfBecause};
ghost use Rattle.wh_poly.specs.Erase.{poly};
ghost use Rattle.wh_hopoly.specs.Erase.{expression, interpretations};
ghost use Rattle.wh_hopoly.specs.Evaluation.{symbol, evaluate, TypedExpression, NormalInterpretations};
ghost use Rattle.wh_hopoly.specs.Outcomes.{ComesTo, IsFaultOf, applied_to};

use crate::evaluating::{Setting, evaluate};
use crate::expression::{Expr, Symbol};
use crate::fault::PolyFault;
use crate::scope::Scope;
use crate::table::Table;
use crate::valued::{apply_valued, located, value_of_symbol};
use std::alloc::{AllocError, Global};
use wh_poly::Poly;
use wh_types::{Or, SimpleType};

/// The normal form of a well-typed expression: its value in the scope that goes on with the arguments of its type.
///
/// `scope` has the types of the expression's variables, and `symbols` what its symbols are read as, each normal in the
/// scope of its type's arguments. `Err` comes only where the rule of the part that it names gives a value that exceeds
/// the limit that it names; `Ok` only where no value in the whole evaluation exceeds one (Fuhs and Kop 2012; the limits
/// are ours).
pub fn normal(
    alloc: Global,
    expr: &Expr,
    scope: &[SimpleType],
    symbols: &[Symbol],
) -> Result<Poly, Or<PolyFault>>
    requires typed { TypedExpression (interpretations symbols.now) (map ty scope.now) (expression expr.now) }
    requires normal { NormalInterpretations (interpretations symbols.now) }
    ensures ok { IfOk result (λ r. ComesTo (evaluate (interpretations symbols.now) (map ty scope.now) (expression expr.now)) (poly r)) }
    ensures fault { IfBecause result (λ e. IsFaultOf (interpretations symbols.now) (map ty scope.now) (expression expr.now) e) }
{
    let count = count_of(scope.len())?;
    let mut next = 0;
    let setting = Setting {
        scope: Scope::Given(scope),
        count,
        table: Table::Alone(symbols),
    };
    let valued = evaluate(alloc, expr, &setting, &mut next)?;
    Ok(valued.value)
}

/// The normal form of a function that is no symbol of the expressions, told by its type and its polynomial, applied to
/// arguments in turn. It counts as one more symbol behind the others, so that its number is the number of symbols.
pub fn normal_call(
    alloc: Global,
    kind: &SimpleType,
    function: &Poly,
    args: &[Expr],
    scope: &[SimpleType],
    symbols: &[Symbol],
) -> Result<Poly, Or<PolyFault>>
    requires typed { let all = interpretations symbols.now ++ record { kind = ty kind.now; polynomial = poly function.now }
        ∷ [] in TypedExpression all (map ty scope.now) (applied_to (symbol (length symbols.now)) (map expression args.now)) }
    requires normal { let all = interpretations symbols.now ++ record { kind = ty kind.now; polynomial = poly function.now }
        ∷ [] in NormalInterpretations all }
    ensures ok { IfOk result (λ r. let all = interpretations symbols.now ++ record { kind = ty kind.now; polynomial = poly function.now }
        ∷ [] in ComesTo (evaluate all (map ty scope.now) (applied_to (symbol (length symbols.now)) (map expression args.now))) (poly r)) }
    ensures fault { IfBecause result (λ e. let all = interpretations symbols.now ++ record
        { kind = ty kind.now; polynomial = poly function.now }
        ∷ [] in IsFaultOf all (map ty scope.now) (applied_to (symbol (length symbols.now)) (map expression args.now)) e) }
{
    let count = count_of(scope.len())?;
    let setting = Setting {
        scope: Scope::Given(scope),
        count,
        table: Table::With(symbols, kind, function),
    };
    // The whole is part 0, and the function is the part behind all applications to its arguments.
    let mut at = count_of(args.len())?;
    let mut next = at.checked_add(1).ok_or(AllocError)?;
    let mut value = located(at, value_of_symbol(alloc, kind, function, count))?;
    for arg in args {
        let argument = evaluate(alloc, arg, &setting, &mut next)?;
        at -= 1;
        value = located(
            at,
            apply_valued(alloc, value, &argument.value, &setting.scope, count),
        )?;
    }
    Ok(value.value)
}

// A number of variables or of arguments. Where it exceeds 32 bits the answer is want of memory.
fn count_of(length: usize) -> Result<u32, AllocError>
    ensures { IfOk result (λ count. count ≡ length) }
{
    u32::try_from(length).or(Err(AllocError))
}
