//! Numbered trees of sides as expressions: one walk, which knows how long the scope is at each place.

ghost use Rattle.std.specs.Prelude.{◌≡◌, ◌<◌, All, IfOk, length, map};
ghost use Rattle.wh_hopoly.specs.Erase.{expression};
ghost use Rattle.wh_hopoly.specs.Evaluation.{apply, var};
ghost use Rattle.wh_polycheck.specs.Sides.{side, side_applied};
ghost use Rattle.wh_intern.specs.TableTrees.{trees};
ghost use Rattle.wh_intern.specs.Trees.{tree_at, trees_at};

use std::alloc::{AllocError, Global};
use wh_hopoly::Expr;
use wh_intern::{Part, Table};
use wh_types::{Numbers, sum};

/// The tree of that number as an expression in a scope of `scope` variables.
#[cycle(expressions)]
pub fn expression_of(
    alloc: Global,
    table: &Table,
    number: u32,
    scope: u32,
) -> Result<Expr, AllocError>
    requires { number < length (trees table.now) }
    ensures { IfOk result (λ e. expression e ≡ side scope (tree_at (trees table.now) number)) }
{
    match table.part(number) {
        Part::Bound(outward) => Ok(Expr::Var(scope.saturating_sub(1).saturating_sub(*outward))),
        Part::Free(_, _) => Ok(Expr::Var(scope)),
        Part::Fun(symbol) => Ok(Expr::Sym(*symbol)),
        Part::Meta(meta, items) => {
            meta_applied(alloc, table, number, *meta, items.as_slice(), scope)
        }
        Part::Lam(kind, body) => {
            let kind = kind.copy(alloc)?;
            let body = expression_of(alloc, table, *body, sum(scope, 1)?)?;
            Ok(Expr::Lam(kind, Box::new(alloc, body)?))
        }
        Part::App(function, argument) => {
            let function = expression_of(alloc, table, *function, scope)?;
            let argument = expression_of(alloc, table, *argument, scope)?;
            application(alloc, function, argument)
        }
    }
}

// The variable applied in turn to the trees of these numbers, which are below that one.
#[cycle(expressions)]
fn meta_applied(
    alloc: Global,
    table: &Table,
    above: u32,
    variable: u32,
    numbers: &[u32],
    scope: u32,
) -> Result<Expr, AllocError>
    requires within { above < length (trees table.now) }
    requires below { All (λ n. n < above) numbers.now }
    ensures { IfOk result (λ e. expression e ≡ side_applied scope (var variable) (trees_at (trees table.now) numbers.now)) }
{
    let mut whole = Expr::Var(variable);
    for number in numbers {
        let argument = expression_of(alloc, table, *number, scope)?;
        whole = application(alloc, whole, argument)?;
    }
    Ok(whole)
}

// A function applied to an argument.
fn application(alloc: Global, function: Expr, argument: Expr) -> Result<Expr, AllocError>
    ensures { IfOk result (λ e. expression e ≡ apply (expression function) (expression argument)) }
{
    Ok(Expr::App(Box::new(alloc, function)?, Box::new(alloc, argument)?))
}

/// The trees of these numbers as expressions, in the same order.
pub fn expressions_of(
    alloc: Global,
    table: &Table,
    numbers: &Numbers,
    scope: u32,
) -> Result<Vec<Expr>, AllocError>
    requires { All (λ n. n < length (trees table.now)) numbers.now }
    ensures { IfOk result (λ es. map expression es.items ≡ map (λ n. side scope (tree_at (trees table.now) n)) numbers.now) }
{
    let mut expressions = Vec::new(alloc);
    for number in numbers.as_slice() {
        expressions.push(expression_of(alloc, table, *number, scope)?)?;
    }
    Ok(expressions)
}
