//! Raising a term: it is moved below further binders, and its loose variables are counted on.

ghost use Rattle.std.specs.Prelude.{◌≡◌, ◌+◌, IfOk, IsTrue};
ghost use Rattle.wh_types.specs.Erase.{ty};
ghost use Rattle.wh_terms.specs.Tree.{bound, free};
ghost use Rattle.wh_terms.specs.Erase.{tm};
ghost use Rattle.wh_terms.specs.Substitution.{act};
ghost use Rattle.wh_terms.specs.Under.{ups, ups_free, moved, raised};

use crate::copy::copy_term;
use crate::term::Term;
use crate::walk::{Replace, act_under};
use std::alloc::{AllocError, Global};
use wh_types::{SimpleType, sum};

// Loose variables count `by` binders more.
#[derive(Clone, Copy)]
struct Raising {
    by: u32,
}

impl Replace for Raising {
    ghost for_bound = { λ raising. moved raising.by };

    ghost for_free = { λ _. free };

    ghost is_ready = { λ _. Unit {0} };

    #[tactic(auto, using(crate::proofs::UnderLemmas::ups_low, crate::proofs::UnderLemmas::moved_beyond))]
    fn bound(&self, _alloc: Global, number: u32, depth: u32) -> Result<Term, AllocError> {
        if number < depth {
            Ok(Term::Bound(number))
        } else {
            Ok(Term::Bound(sum(number, self.by)?))
        }
    }

    #[tactic(auto, using(crate::proofs::UnderLemmas::ups_free_stays))]
    fn free(
        &self,
        alloc: Global,
        number: u32,
        kind: &SimpleType,
        _depth: u32,
    ) -> Result<Term, AllocError> {
        Ok(Term::Free(number, kind.copy(alloc)?))
    }
}

/// The term as it reads below `by` further binders. Where a number exceeds 32 bits there are more binders than memory
/// holds, and the answer is want of memory.
#[tactic(auto, using(crate::proofs::UnderLemmas::raised_zero, crate::proofs::UnderLemmas::raised_is_act, crate::proofs::UnderLemmas::act_top))]
pub fn raise(alloc: Global, term: &Term, by: u32) -> Result<Term, AllocError>
    ensures { IfOk result (λ r. tm r ≡ raised by (tm term.now)) }
{
    if by == 0 {
        copy_term(alloc, term)
    } else {
        act_under(alloc, &Raising { by }, term, 0)
    }
}
