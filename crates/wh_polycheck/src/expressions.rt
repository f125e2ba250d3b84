//! Terms of sides as expressions: one walk, which knows how long the scope is at each place.

ghost use Rattle.std.specs.Prelude.{◌≡◌, ◌+◌, IfOk, map};
ghost use Rattle.wh_terms.specs.Erase.{tms, tm};
ghost use Rattle.wh_hopoly.specs.Erase.{expression};
ghost use Rattle.wh_hopoly.specs.Evaluation.{apply, var};
ghost use Rattle.wh_polycheck.specs.Sides.{side, side_applied};

use std::alloc::{AllocError, Global};
use wh_hopoly::Expr;
use wh_terms::{Term, Terms};
use wh_types::sum;

/// The term as an expression in a scope of `scope` variables.
#[cycle(expressions)]
pub fn expression_of(alloc: Global, term: &Term, scope: u32) -> Result<Expr, AllocError>
    ensures { IfOk result (λ e. expression e ≡ side scope (tm term.now)) }
{
    match term {
        Term::Bound(outward) => Ok(Expr::Var(scope.saturating_sub(1).saturating_sub(*outward))),
        Term::Free(_, _) => Ok(Expr::Var(scope)),
        Term::Fun(symbol) => Ok(Expr::Sym(*symbol)),
        Term::Meta(meta, items) => meta_applied(alloc, *meta, items, scope),
        Term::Lam(kind, body) => {
            let kind = kind.copy(alloc)?;
            let body = expression_of(alloc, body, sum(scope, 1)?)?;
            Ok(Expr::Lam(kind, Box::new(alloc, body)?))
        }
        Term::App(function, argument) => {
            let function = expression_of(alloc, function, scope)?;
            let argument = expression_of(alloc, argument, scope)?;
            application(alloc, function, argument)
        }
    }
}

// The variable applied to the terms in turn.
#[cycle(expressions)]
fn meta_applied(alloc: Global, variable: u32, items: &Terms, scope: u32) -> Result<Expr, AllocError>
    ensures { IfOk result (λ e. expression e ≡ side_applied scope (var variable) (tms items.now)) }
{
    let mut whole = Expr::Var(variable);
    for item in items.as_slice() {
        let argument = expression_of(alloc, item, scope)?;
        whole = application(alloc, whole, argument)?;
    }
    Ok(whole)
}

// A function applied to an argument.
fn application(alloc: Global, function: Expr, argument: Expr) -> Result<Expr, AllocError>
    ensures { IfOk result (λ e. expression e ≡ apply (expression function) (expression argument)) }
{
    Ok(Expr::App(Box::new(alloc, function)?, Box::new(alloc, argument)?))
}

/// The terms as expressions, in the same order.
pub fn expressions_of(alloc: Global, items: &Terms, scope: u32) -> Result<Vec<Expr>, AllocError>
    ensures { IfOk result (λ es. map expression es.items ≡ map (λ t. side scope (tm t)) items.now) }
{
    let mut expressions = Vec::new(alloc);
    for item in items.as_slice() {
        expressions.push(expression_of(alloc, item, scope)?)?;
    }
    Ok(expressions)
}
