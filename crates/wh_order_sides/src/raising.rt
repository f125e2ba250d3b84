//! Moving a term below one binder more: its loose variables are counted on.

ghost use Rattle.std.specs.Prelude.{◌≡◌, IfOk, suc};
ghost use Rattle.wh_terms.specs.Erase.{tm, tms};
ghost use Rattle.wh_terms.specs.Substitution.{rename, renames};
ghost use Rattle.wh_order_sides.specs.Growth.{past};

use std::alloc::{AllocError, Global};
use wh_terms::{Term, Terms};
use wh_types::sum;

/// The term as it reads below one binder more.
#[tactic(auto, using(crate::proofs::RaiseLemmas::past_none))]
pub fn raise(alloc: Global, term: &Term) -> Result<Term, AllocError>
    ensures { IfOk result (λ r. tm r ≡ rename suc (tm term.now)) }
{
    raise_under(alloc, term, 0)
}

// The part of a term that stands below `depth` of its binders, as it reads below one binder more.
#[cycle(raising)]
#[tactic(auto, using(crate::proofs::RaiseLemmas::raised_bound, crate::proofs::RaiseLemmas::raised_free, crate::proofs::RaiseLemmas::raised_fun, crate::proofs::RaiseLemmas::raised_app, crate::proofs::RaiseLemmas::raised_lam))]
fn raise_under(alloc: Global, term: &Term, depth: u32) -> Result<Term, AllocError>
    ensures { IfOk result (λ r. tm r ≡ rename (past depth) (tm term.now)) }
{
    match term {
        Term::Bound(number) => Ok(Term::Bound(raised_number(*number, depth)?)),
        Term::Free(number, kind) => Ok(Term::Free(*number, kind.copy(alloc)?)),
        Term::Fun(symbol) => Ok(Term::Fun(*symbol)),
        Term::Meta(meta, items) => Ok(Term::Meta(*meta, raise_each(alloc, items, depth)?)),
        Term::Lam(kind, body) => {
            let kind = kind.copy(alloc)?;
            let body = raise_under(alloc, body, sum(depth, 1)?)?;
            Ok(Term::Lam(kind, Box::new(alloc, body)?))
        }
        Term::App(function, argument) => {
            let function = Box::new(alloc, raise_under(alloc, function, depth)?)?;
            Ok(Term::App(
                function,
                Box::new(alloc, raise_under(alloc, argument, depth)?)?,
            ))
        }
    }
}

// The arguments of a meta-variable below `depth` binders of the term, as they read below one binder more.
#[cycle(raising)]
#[tactic(auto, using(crate::proofs::RaiseLemmas::renames_push, crate::proofs::RaiseLemmas::renames_none))]
fn raise_each(alloc: Global, items: &Terms, depth: u32) -> Result<Terms, AllocError>
    ensures { IfOk result (λ r. tms r ≡ renames (past depth) (tms items.now)) }
{
    let mut results = Terms::new(alloc);
    for item in items.as_slice() {
        results.push(raise_under(alloc, item, depth)?)?;
    }
    Ok(results)
}

// The number of a bound variable that stands below `depth` binders of the term.
#[tactic(auto, using(crate::proofs::RaiseLemmas::past_low, crate::proofs::RaiseLemmas::past_high))]
fn raised_number(number: u32, depth: u32) -> Result<u32, AllocError>
    ensures { IfOk result (λ r. r ≡ past depth number) }
{
    if number < depth {
        Ok(number)
    } else {
        sum(number, 1)
    }
}
