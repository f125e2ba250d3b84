//! Opening the body of an abstraction: `open_with` puts a term for the variable that the abstraction binds.

ghost use Rattle.std.specs.Prelude.{◌≡◌, IfOk};
ghost use Rattle.wh_types.specs.Erase.{ty};
ghost use Rattle.wh_terms.specs.Tree.{bound, free};
ghost use Rattle.wh_terms.specs.Erase.{tm};
ghost use Rattle.wh_terms.specs.Measures.{Manageable};
ghost use Rattle.wh_terms.specs.Substitution.{act, cons, opened};
ghost use Rattle.wh_terms.specs.Under.{ups, ups_free};

use crate::raise::raise;
use crate::term::Term;
use crate::walk::{Replace, act_under};
use std::alloc::{AllocError, Global};
use wh_types::SimpleType;

// A term for the nearest loose variable; the others come one nearer.
#[derive(Clone, Copy)]
struct Opening<'a> {
    value: &'a Term,
}

impl Replace for Opening<'_> {
    ghost for_bound = { λ opening. cons (tm opening.value.now) bound };

    ghost for_free = { λ _. free };

    ghost is_ready = { λ _. Unit {0} };

    #[tactic(auto, using(crate::proofs::UnderLemmas::ups_low, crate::proofs::UnderLemmas::opened_here, crate::proofs::UnderLemmas::opened_beyond))]
    fn bound(&self, alloc: Global, number: u32, depth: u32) -> Result<Term, AllocError> {
        if number < depth {
            Ok(Term::Bound(number))
        } else if number == depth {
            raise(alloc, self.value, depth)
        } else {
            Ok(Term::Bound(number - 1))
        }
    }

    #[tactic(auto, using(crate::proofs::UnderLemmas::ups_free_stays))]
    fn free(
        &self,
        alloc: Global,
        number: u32,
        kind: &SimpleType,
        _depth: u32,
    ) -> Result<Term, AllocError> {
        Ok(Term::Free(number, kind.copy(alloc)?))
    }
}

/// The body of an abstraction with `value` for the abstraction's variable. Each other loose variable of the body comes
/// one binder nearer; nothing is captured, so the value's loose variables count the binders passed too.
#[tactic(auto, using(crate::proofs::UnderLemmas::opened_top))]
pub fn open_with(alloc: Global, body: &Term, value: &Term) -> Result<Term, AllocError>
    requires body_in_range { Manageable (tm body.now) }
    requires value_in_range { Manageable (tm value.now) }
    ensures { IfOk result (λ r. tm r ≡ opened (tm value.now) (tm body.now)) }
{
    act_under(alloc, &Opening { value }, body, 0)
}
