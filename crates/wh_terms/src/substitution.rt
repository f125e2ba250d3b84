//! Substitution: trees are put for free variables, and nothing is captured.

ghost use Rattle.std.specs.Prelude.{◌≡◌, IfOk, MatchOption, All};
ghost use Rattle.wh_types.specs.Erase.{ty};
ghost use Rattle.wh_terms.specs.Tree.{bound, free};
ghost use Rattle.wh_terms.specs.Erase.{tm};
ghost use Rattle.wh_terms.specs.Entries.{replacement};
ghost use Rattle.wh_terms.specs.Measures.{Manageable};
ghost use Rattle.wh_terms.specs.Substitution.{act};
ghost use Rattle.wh_terms.specs.Under.{ups, ups_free, raised};

use crate::raise::raise;
use crate::subst::Subst;
use crate::term::Term;
use crate::walk::{Replace, act_under};
use std::alloc::{AllocError, Global};
use wh_types::{SimpleType, same_type};

// The trees of a substitution for the free variables that it lists.
#[derive(Clone, Copy)]
struct Substituting<'a> {
    by: &'a Subst,
}

impl Replace for Substituting<'_> {
    ghost for_bound = { λ _. bound };

    ghost for_free = { λ it. replacement it.by.now };

    ghost is_ready = { λ _. Unit {0} };

    #[tactic(auto, using(crate::proofs::UnderLemmas::unmoved))]
    fn bound(&self, _alloc: Global, number: u32, _depth: u32) -> Result<Term, AllocError> {
        Ok(Term::Bound(number))
    }

    #[tactic(auto, using(crate::proofs::UnderLemmas::ups_free_at, crate::proofs::UnderLemmas::raised_free))]
    fn free(
        &self,
        alloc: Global,
        number: u32,
        kind: &SimpleType,
        depth: u32,
    ) -> Result<Term, AllocError> {
        match value_for(self.by, number, kind) {
            Some(value) => raise(alloc, value, depth),
            None => Ok(Term::Free(number, kind.copy(alloc)?)),
        }
    }
}

// The tree that the substitution lists for a free variable.
#[tactic(auto, using(crate::proofs::SubstituteLemmas::replacement_found, crate::proofs::SubstituteLemmas::replacement_passed))]
fn value_for<'a>(by: &'a Subst, number: u32, kind: &SimpleType) -> Option<&'a Term>
    ensures { MatchOption result
        (replacement by.now number (ty kind.now) ≡ free number (ty kind.now))
        (λ value. replacement by.now number (ty kind.now) ≡ tm value.now) }
{
    for entry in by.as_slice() {
        if entry.number == number && same_type(&entry.kind, kind) {
            return Some(&entry.value);
        }
    }
    None
}

/// The term with the trees of the substitution for the free variables that it lists, each told apart by number and
/// type. Nothing is captured: below a binder a tree's loose variables count that binder too.
#[tactic(auto, using(crate::proofs::UnderLemmas::act_top))]
pub fn substitute(alloc: Global, term: &Term, by: &Subst) -> Result<Term, AllocError>
    requires term_in_range { Manageable (tm term.now) }
    requires values_in_range { All (λ entry. Manageable (tm entry.value)) by.now }
    ensures { IfOk result (λ r. tm r ≡ act bound (replacement by.now) (tm term.now)) }
{
    act_under(alloc, &Substituting { by }, term, 0)
}
