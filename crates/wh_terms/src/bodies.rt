//! The bodies of a meta-substitution: `body_for` looks one up, and `insert` puts the values of arguments for its
//! parameters.

ghost use Rattle.std.specs.Prelude.{◌≡◌, ◌+◌, IfOk, MatchOption};
ghost use Rattle.wh_types.specs.Erase.{ty};
ghost use Rattle.wh_terms.specs.Tree.{free};
ghost use Rattle.wh_terms.specs.Erase.{tm, tms};
ghost use Rattle.wh_terms.specs.Entries.{bodies, Lists};
ghost use Rattle.wh_terms.specs.Substitution.{act};
ghost use Rattle.wh_terms.specs.Value.{parameters};
ghost use Rattle.wh_terms.specs.Under.{ups, ups_free, moved};

use crate::raise::raise;
use crate::subst::{MetaBody, MetaSubst};
use crate::term::Term;
use crate::walk::{Replace, act_under};
use std::alloc::{AllocError, Global};
use wh_types::{SimpleType, sum};

/// The body that the meta-substitution lists for a meta-variable.
#[tactic(auto, using(crate::proofs::BodyLemmas::bodies_found, crate::proofs::BodyLemmas::bodies_passed, crate::proofs::BodyLemmas::listed_here, crate::proofs::BodyLemmas::others_more, crate::proofs::BodyLemmas::not_listed))]
pub fn body_for<'a>(by: &'a MetaSubst, meta: u32) -> Option<&'a MetaBody>
    ensures { MatchOption result
        (Lists by.now meta → ⊥)
        (λ body. Lists by.now meta × (bodies by.now meta ≡ record { arity = body.now.arity; tree = tm body.now.body })) }
{
    for body in by.as_slice() {
        if body.meta == meta {
            return Some(body);
        }
    }
    None
}

// Trees for the parameters of a body, whose further loose variables count `depth` binders more.
#[derive(Clone, Copy)]
struct Inserting<'a> {
    values: &'a [Term],
    depth: u32,
}

impl Replace for Inserting<'_> {
    ghost for_bound = { λ it. parameters (tms it.values.now) (moved it.depth) };

    ghost for_free = { λ _. free };

    ghost is_ready = { λ _. Unit {0} };

    #[tactic(auto, using(crate::proofs::UnderLemmas::ups_low, crate::proofs::BodyLemmas::parameter_here, crate::proofs::BodyLemmas::parameter_beyond))]
    fn bound(&self, alloc: Global, number: u32, depth: u32) -> Result<Term, AllocError> {
        if number < depth {
            return Ok(Term::Bound(number));
        }
        let inward = (number - depth) as usize;
        let count = self.values.len();
        if inward < count {
            raise(alloc, &self.values[count - 1 - inward], depth)
        } else {
            Ok(Term::Bound(sum(number - count as u32, self.depth)?))
        }
    }

    #[tactic(auto, using(crate::proofs::UnderLemmas::ups_free_stays))]
    fn free(
        &self,
        alloc: Global,
        number: u32,
        kind: &SimpleType,
        _depth: u32,
    ) -> Result<Term, AllocError> {
        Ok(Term::Free(number, kind.copy(alloc)?))
    }
}

/// The body as it reads below `depth` binders, with the values for its parameters.
#[tactic(auto, using(crate::proofs::UnderLemmas::act_top))]
pub fn insert(alloc: Global, body: &Term, values: &[Term], depth: u32) -> Result<Term, AllocError>
    ensures { IfOk result (λ r. tm r ≡ act (parameters (tms values.now) (moved depth)) free (tm body.now)) }
{
    act_under(alloc, &Inserting { values, depth }, body, 0)
}
