//! The walk that puts trees for variables.
//!
//! Opening, closing, substitution and the insertion of a body are one walk. It never opens a binder: it carries the
//! number of binders that it has passed, and asks for what takes a variable's place under that number.

ghost use Rattle.std.specs.Prelude.{◌≡◌, ◌+◌, ℕ, IfOk};
ghost use Rattle.wh_terms.specs.Erase.{tm, tms};
ghost use Rattle.wh_terms.specs.Substitution.{act, acts};
ghost use Rattle.wh_terms.specs.Under.{ups, ups_free};
ghost use Rattle.wh_types.specs.Erase.{ty};

use crate::term::{Term, Terms};
use std::alloc::{AllocError, Global};
use wh_types::{SimpleType, sum};

/// What takes the place of variables.
pub trait Replace {
    ghost use Rattle.wh_types.specs.Ty.{Ty};
    ghost use Rattle.wh_terms.specs.Tree.{Tm};

    // the trees for loose variables and for free ones, as they read where no binder was passed
    ghost for_bound: { Self → ℕ → Tm };

    ghost for_free: { Self → ℕ → Ty → Tm };

    // what has to hold before a walk
    ghost is_ready: { Self → Type 0 };

    /// What takes the place of a bound variable where `depth` binders were passed.
    fn bound(&self, alloc: Global, number: u32, depth: u32) -> Result<Term, AllocError>
        requires { is_ready self.now }
        ensures { IfOk result (λ r. tm r ≡ ups depth (for_bound self.now) number) };

    /// What takes the place of a free variable where `depth` binders were passed.
    fn free(
        &self,
        alloc: Global,
        number: u32,
        kind: &SimpleType,
        depth: u32,
    ) -> Result<Term, AllocError>
        requires { is_ready self.now }
        ensures { IfOk result (λ r. tm r ≡ ups_free depth (for_free self.now) number (ty kind.now)) };
}

/// The term, `depth` binders below the place where `by` speaks, with the trees of `by` for its variables.
#[cycle(act)]
#[tactic(auto, using(crate::proofs::WalkLemmas::act_at_bound, crate::proofs::WalkLemmas::act_at_free, crate::proofs::WalkLemmas::act_at_fun, crate::proofs::WalkLemmas::act_at_app, crate::proofs::WalkLemmas::act_at_meta, crate::proofs::WalkLemmas::act_at_lam))]
pub fn act_under<R: Replace>(
    alloc: Global,
    by: &R,
    term: &Term,
    depth: u32,
) -> Result<Term, AllocError>
    requires { R.is_ready by.now }
    ensures { IfOk result (λ r. tm r ≡ act (ups depth (R.for_bound by.now)) (ups_free depth (R.for_free by.now)) (tm term.now)) }
{
    match term {
        Term::Bound(number) => by.bound(alloc, *number, depth),
        Term::Free(number, kind) => by.free(alloc, *number, kind, depth),
        Term::Fun(symbol) => Ok(Term::Fun(*symbol)),
        Term::Meta(meta, items) => Ok(Term::Meta(*meta, act_each(alloc, by, items, depth)?)),
        Term::Lam(kind, body) => {
            let kind = kind.copy(alloc)?;
            let body = act_under(alloc, by, body, sum(depth, 1)?)?;
            Ok(Term::Lam(kind, Box::new(alloc, body)?))
        }
        Term::App(function, argument) => {
            let function = Box::new(alloc, act_under(alloc, by, function, depth)?)?;
            Ok(Term::App(
                function,
                Box::new(alloc, act_under(alloc, by, argument, depth)?)?,
            ))
        }
    }
}

// Puts the trees of `by` for the variables of each argument of a meta-variable, `depth` binders below the place where
// `by` speaks.
#[cycle(act)]
#[tactic(auto, using(crate::proofs::WalkLemmas::acts_push, crate::proofs::WalkLemmas::acts_none))]
fn act_each<R: Replace>(
    alloc: Global,
    by: &R,
    items: &Terms,
    depth: u32,
) -> Result<Terms, AllocError>
    requires { R.is_ready by.now }
    ensures { IfOk result (λ r. tms r ≡ acts (ups depth (R.for_bound by.now)) (ups_free depth (R.for_free by.now)) (tms items.now)) }
{
    let mut results = Terms::new(alloc);
    for item in items.as_slice() {
        results.push(act_under(alloc, by, item, depth)?)?;
    }
    Ok(results)
}
