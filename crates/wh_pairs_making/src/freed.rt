//! Freeing bound variables: meta-variables in their place.
//!
//! The walk opens no binder of its own: it carries the number of binders that it has passed.

ghost use Rattle.std.specs.Prelude.{◌≡◌, ◌+◌, ℕ, map, IfOk};
ghost use Rattle.wh_types.specs.Erase.{ty};
ghost use Rattle.wh_terms.specs.Tree.{free, meta as meta_tree, none};
ghost use Rattle.wh_terms.specs.Erase.{tm, tms};
ghost use Rattle.wh_terms.specs.Scope.{scope};
ghost use Rattle.wh_terms.specs.Substitution.{act, acts};
ghost use Rattle.wh_terms.specs.Under.{ups, ups_free};
ghost use Rattle.wh_pairs.specs.Candidates.{freed};
ghost use Rattle.wh_pairs_calls.specs.Views.{trees};

use std::alloc::{AllocError, Global};
use wh_terms::{Term, Terms};
use wh_types::{SimpleType, counted, sum};

/// Binders whose variables become meta-variables of arity 0: that of the outermost one has the number `first`, and each
/// further one counts on.
#[derive(Clone, Copy)]
pub struct Freeing<'a> {
    /// The number of the first meta-variable.
    pub first: u32,
    /// The types of the binders, the outermost first.
    pub binders: &'a [&'a SimpleType],
}

/// The application of a meta-variable of arity 0.
pub fn nullary(alloc: Global, meta: u32) -> Result<Term, AllocError>
    ensures { IfOk result (λ r. tm r ≡ meta_tree meta none) }
{
    Ok(Term::Meta(meta, Terms::new(alloc)))
}

// What stands for a bound variable where `depth` further binders were passed.
#[tactic(auto, using(wh_terms::proofs::UnderLemmas::ups_low, wh_pairs::proofs::FreedLemmas::freed_here, wh_pairs::proofs::FreedLemmas::freed_beyond))]
fn freed_variable(
    alloc: Global,
    by: &Freeing<'_>,
    number: u32,
    depth: u32,
) -> Result<Term, AllocError>
    ensures { IfOk result (λ r. tm r ≡ ups depth (freed by.now.first (scope by.now.binders.now)) number) }
{
    if number < depth {
        return Ok(Term::Bound(number));
    }
    let inward = (number - depth) as usize;
    if inward < by.binders.len() {
        let outward = counted(by.binders.len() - 1 - inward)?;
        nullary(alloc, sum(by.first, outward)?)
    } else {
        Ok(Term::Bound(number - by.binders.len() as u32))
    }
}

// A part of a right side, `depth` binders further below, with meta-variables for the bound variables.
#[cycle(freed)]
#[tactic(auto, using(wh_terms::proofs::UnderLemmas::ups_free_stays, wh_terms::proofs::WalkLemmas::act_at_bound, wh_terms::proofs::WalkLemmas::act_at_free, wh_terms::proofs::WalkLemmas::act_at_fun, wh_terms::proofs::WalkLemmas::act_at_app, wh_terms::proofs::WalkLemmas::act_at_lam))]
fn freed_under(alloc: Global, by: &Freeing<'_>, term: &Term, depth: u32) -> Result<Term, AllocError>
    ensures { IfOk result (λ r. tm r ≡ act (ups depth (freed by.now.first (scope by.now.binders.now))) (ups_free depth free)
        (tm term.now)) }
{
    match term {
        Term::Bound(number) => freed_variable(alloc, by, *number, depth),
        Term::Free(number, kind) => Ok(Term::Free(*number, kind.copy(alloc)?)),
        Term::Fun(symbol) => Ok(Term::Fun(*symbol)),
        Term::Meta(meta, items) => Ok(Term::Meta(*meta, freed_each(alloc, by, items, depth)?)),
        Term::Lam(kind, body) => {
            let kind = kind.copy(alloc)?;
            let body = freed_under(alloc, by, body, sum(depth, 1)?)?;
            Ok(Term::Lam(kind, Box::new(alloc, body)?))
        }
        Term::App(function, argument) => {
            let function = Box::new(alloc, freed_under(alloc, by, function, depth)?)?;
            Ok(Term::App(
                function,
                Box::new(alloc, freed_under(alloc, by, argument, depth)?)?,
            ))
        }
    }
}

// The arguments of a meta-variable, `depth` binders further below, with meta-variables for the bound variables.
#[cycle(freed)]
#[tactic(auto, using(wh_terms::proofs::WalkLemmas::acts_push, wh_terms::proofs::WalkLemmas::acts_none))]
fn freed_each(
    alloc: Global,
    by: &Freeing<'_>,
    items: &Terms,
    depth: u32,
) -> Result<Terms, AllocError>
    ensures { IfOk result (λ r. tms r ≡ acts (ups depth (freed by.now.first (scope by.now.binders.now))) (ups_free depth free)
        (tms items.now)) }
{
    let mut results = Terms::new(alloc);
    for item in items.as_slice() {
        results.push(freed_under(alloc, by, item, depth)?)?;
    }
    Ok(results)
}

/// The arguments of a call, with meta-variables for the bound variables.
pub fn freed_arguments(
    alloc: Global,
    by: &Freeing<'_>,
    arguments: &[&Term],
) -> Result<Terms, AllocError>
    ensures { IfOk result (λ r. map tm r ≡ map (act (freed by.now.first (scope by.now.binders.now)) free) (trees arguments.now)) }
{
    let mut results = Terms::new(alloc);
    for argument in arguments {
        results.push(freed_under(alloc, by, argument, 0)?)?;
    }
    Ok(results)
}
