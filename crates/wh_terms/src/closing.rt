//! Closing a term over a free variable: `close` makes the body of an abstraction, in which that variable is bound. It
//! is the way back from `open_with`.

ghost use Rattle.std.specs.Prelude.{◌≡◌, IfOk};
ghost use Rattle.wh_types.specs.Erase.{ty};
ghost use Rattle.wh_terms.specs.Tree.{bound, free};
ghost use Rattle.wh_terms.specs.Erase.{tm};
ghost use Rattle.wh_terms.specs.Measures.{Manageable};
ghost use Rattle.wh_terms.specs.Sight.{Lacks};
ghost use Rattle.wh_terms.specs.Substitution.{act, opened};
ghost use Rattle.wh_terms.specs.Under.{ups, ups_free, moved, closing};

use crate::term::Term;
use crate::walk::{Replace, act_under};
use std::alloc::{AllocError, Global};
use wh_types::{SimpleType, same_type, sum};

// The variable of a new binder for one free variable; loose variables come one binder farther.
#[derive(Clone, Copy)]
struct Closing<'a> {
    number: u32,
    kind: &'a SimpleType,
}

impl Replace for Closing<'_> {
    ghost for_bound = { λ _. moved 1 };

    ghost for_free = { λ it. closing it.number (ty it.kind.now) };

    ghost is_ready = { λ _. Unit {0} };

    #[tactic(auto, using(crate::proofs::UnderLemmas::ups_low, crate::proofs::UnderLemmas::moved_beyond))]
    fn bound(&self, _alloc: Global, number: u32, depth: u32) -> Result<Term, AllocError> {
        if number < depth {
            Ok(Term::Bound(number))
        } else {
            Ok(Term::Bound(sum(number, 1)?))
        }
    }

    #[tactic(auto, using(crate::proofs::CloseLemmas::closing_here, crate::proofs::CloseLemmas::closing_other))]
    fn free(
        &self,
        alloc: Global,
        number: u32,
        kind: &SimpleType,
        depth: u32,
    ) -> Result<Term, AllocError> {
        if number == self.number && same_type(kind, self.kind) {
            Ok(Term::Bound(depth))
        } else {
            Ok(Term::Free(number, kind.copy(alloc)?))
        }
    }
}

/// The body of an abstraction over the free variable with this number and type: the variable of the new binder stands
/// in its place, and each loose variable of the term comes one binder farther.
#[tactic(auto, using(crate::proofs::UnderLemmas::act_top, crate::proofs::CloseLemmas::closed_lacks, crate::proofs::CloseLemmas::closed_back))]
pub fn close(alloc: Global, term: &Term, number: u32, kind: &SimpleType) -> Result<Term, AllocError>
    requires { Manageable (tm term.now) }
    ensures absent { IfOk result (λ r. Lacks number (ty kind.now) (tm r)) }
    ensures back { IfOk result (λ r. opened (free number (ty kind.now)) (tm r) ≡ tm term.now) }
{
    act_under(alloc, &Closing { number, kind }, term, 0)
}
