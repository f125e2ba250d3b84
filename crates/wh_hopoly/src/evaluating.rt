//! The evaluation of an expression, part by part. Parts are numbered in preorder as they are met.

ghost use Rattle.std.specs.Prelude.{◌≡◌, ◌+◌, length, IfOk};
ghost use Rattle.wh_types.specs.Erase.{ty};
ghost use Rattle.wh_types.specs.Outcome.{IfBecause};
ghost use Rattle.wh_hopoly.specs.Erase.{expression};
ghost use Rattle.wh_hopoly.specs.Evaluation.{lambda, apply, TypedExpression, NormalInterpretations};
ghost use Rattle.wh_hopoly.specs.NumberedParts.{parts};
ghost use Rattle.wh_hopoly.specs.Scopes.{scope_of};
ghost use Rattle.wh_hopoly.specs.Valued.{readings, IsValueOf, IsFaultFrom};

use crate::expression::Expr;
use crate::fault::PolyFault;
use crate::scope::Scope;
use crate::table::{Table, kind_of, polynomial_of};
use crate::valued::{Valued, apply_valued, located, value_of_symbol, value_of_variable};
use std::alloc::{AllocError, Global};
use wh_types::{Or, SimpleType};

/// The scope and the readings in which an expression is evaluated.
#[derive(Clone, Copy)]
pub struct Setting<'a> {
    /// The scope.
    pub scope: Scope<'a>,
    /// How many variables the scope has.
    pub count: u32,
    /// The interpretations of the symbols.
    pub table: Table<'a>,
}

/// The value of an expression that is well typed where it stands. `next` is the expression's own number; afterwards it
/// is the number behind its last part. A fault only where the rule of the part that it names gives a value that exceeds
/// the limit.
#[cycle(evaluate)]
pub fn evaluate<'a>(
    alloc: Global,
    expr: &Expr,
    setting: &'a Setting<'a>,
    next: &mut u32,
) -> Result<Valued, Or<PolyFault>>
    requires typed { TypedExpression (readings setting.now.table) (scope_of setting.now.scope) (expression expr.now) }
    requires normal { NormalInterpretations (readings setting.now.table) }
    requires counted { setting.now.count ≡ length (scope_of setting.now.scope) }
    ensures ok { IfOk result (λ r. IsValueOf (readings setting.now.table) (scope_of setting.now.scope) (expression expr.now) r
        × (next.new ≡ next.old + parts (expression expr.now))) }
    ensures fault { IfBecause result (IsFaultFrom next.old (readings setting.now.table) (scope_of setting.now.scope)
        (expression expr.now)) }
{
    let at = *next;
    *next = at.checked_add(1).ok_or(AllocError)?;
    match expr {
        Expr::Var(x) => located(
            at,
            value_of_variable(alloc, *x, &setting.scope, setting.count),
        ),
        Expr::Sym(f) => {
            let kind = kind_of(&setting.table, *f);
            let reading = polynomial_of(&setting.table, *f);
            located(at, value_of_symbol(alloc, kind, reading, setting.count))
        }
        Expr::Lam(kind, body) => { evaluate_abstraction(alloc, at, kind, body, &*setting, next) }
        Expr::App(function, argument) => {
            evaluate_application(alloc, at, function, argument, &*setting, next)
        }
    }
}

// The value of an abstraction is that of its body, in the scope with the variable that it binds.
#[cycle(evaluate)]
fn evaluate_abstraction<'a>(
    alloc: Global,
    at: u32,
    kind: &'a SimpleType,
    body: &Expr,
    setting: &'a Setting<'a>,
    next: &mut u32,
) -> Result<Valued, Or<PolyFault>>
    requires typed { TypedExpression (readings setting.now.table) (scope_of setting.now.scope)
        (lambda (ty kind.now) (expression body.now)) }
    requires normal { NormalInterpretations (readings setting.now.table) }
    requires counted { setting.now.count ≡ length (scope_of setting.now.scope) }
    requires numbered { next.old ≡ at + 1 }
    ensures ok { IfOk result (λ r. IsValueOf (readings setting.now.table) (scope_of setting.now.scope)
        (lambda (ty kind.now) (expression body.now)) r
        × (next.new ≡ next.old + parts (expression body.now))) }
    ensures fault { IfBecause result (IsFaultFrom at (readings setting.now.table) (scope_of setting.now.scope)
        (lambda (ty kind.now) (expression body.now))) }
{
    let inner = setting.count.checked_add(1).ok_or(AllocError)?;
    let within = Setting {
        scope: Scope::Bound(&setting.scope, kind),
        count: inner,
        table: setting.table,
    };
    let Valued { value, kind: rest } = evaluate(alloc, body, &within, next)?;
    let first = Box::new(alloc, kind.copy(alloc)?)?;
    Ok(Valued {
        value,
        kind: SimpleType::Arrow(first, Box::new(alloc, rest)?),
    })
}

// The value of an application: first that of the function, then that of the argument.
#[cycle(evaluate)]
fn evaluate_application<'a>(
    alloc: Global,
    at: u32,
    function: &Expr,
    argument: &Expr,
    setting: &'a Setting<'a>,
    next: &mut u32,
) -> Result<Valued, Or<PolyFault>>
    requires typed { TypedExpression (readings setting.now.table) (scope_of setting.now.scope)
        (apply (expression function.now) (expression argument.now)) }
    requires normal { NormalInterpretations (readings setting.now.table) }
    requires counted { setting.now.count ≡ length (scope_of setting.now.scope) }
    requires numbered { next.old ≡ at + 1 }
    ensures ok { IfOk result (λ r. IsValueOf (readings setting.now.table) (scope_of setting.now.scope)
        (apply (expression function.now) (expression argument.now)) r
        × (next.new ≡ next.old + (parts (expression function.now) + parts (expression argument.now)))) }
    ensures fault { IfBecause result (IsFaultFrom at (readings setting.now.table) (scope_of setting.now.scope)
        (apply (expression function.now) (expression argument.now))) }
{
    let applied = evaluate(alloc, function, &*setting, next)?;
    let passed = evaluate(alloc, argument, &*setting, next)?;
    located(
        at,
        apply_valued(alloc, applied, &passed.value, &setting.scope, setting.count),
    )
}
