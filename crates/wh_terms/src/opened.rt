//! The part of a term at a position, with the binders on the way opened by free variables.

ghost use Rattle.std.specs.Prelude.{◌≡◌, ◌+◌, ◌<◌, ◌^◌, length, option_map, IfOk};
ghost use Rattle.wh_types.specs.Erase.{ty};
ghost use Rattle.wh_terms.specs.Tree.{bound, free};
ghost use Rattle.wh_terms.specs.Erase.{tm};
ghost use Rattle.wh_terms.specs.Measures.{Manageable};
ghost use Rattle.wh_terms.specs.Places.{opened_part_at};
ghost use Rattle.wh_terms.specs.Substitution.{act};
ghost use Rattle.wh_terms.specs.Under.{ups, ups_free, passed};
ghost use Rattle.wh_terms.specs.Kinds.{kinds_of};

use crate::path::Path;
use crate::term::Term;
use crate::walk::{Replace, act_under};
use std::alloc::{AllocError, Global};
use wh_types::SimpleType;

// Free variables, numbered from `first` on, for the variables of passed binders, the outermost first; loose variables
// beyond these come nearer.
#[derive(Clone, Copy)]
struct Passing<'a> {
    first: u32,
    kinds: &'a [&'a SimpleType],
}

impl Replace for Passing<'_> {
    ghost for_bound = { λ it. passed it.first (kinds_of it.kinds.now) bound };

    ghost for_free = { λ _. free };

    ghost is_ready = { λ it. it.first + length it.kinds.now < 2 ^ 32 };

    #[tactic(auto, using(crate::proofs::UnderLemmas::ups_low, crate::proofs::PassedLemmas::passed_here, crate::proofs::PassedLemmas::passed_beyond))]
    fn bound(&self, alloc: Global, number: u32, depth: u32) -> Result<Term, AllocError> {
        if number < depth {
            return Ok(Term::Bound(number));
        }
        let inward = (number - depth) as usize;
        if inward < self.kinds.len() {
            let outward = self.kinds.len() - 1 - inward;
            Ok(Term::Free(
                self.first + outward as u32,
                self.kinds[outward].copy(alloc)?,
            ))
        } else {
            Ok(Term::Bound(number - self.kinds.len() as u32))
        }
    }

    #[tactic(auto, using(crate::proofs::UnderLemmas::ups_free_stays))]
    fn free(
        &self,
        alloc: Global,
        number: u32,
        kind: &SimpleType,
        _depth: u32,
    ) -> Result<Term, AllocError> {
        Ok(Term::Free(number, kind.copy(alloc)?))
    }
}

/// The part at a position, with a free variable for each abstraction that the path passes: the outermost one is
/// numbered `first`, each further one counts on, and each has the type of its abstraction. None if there is no such
/// position.
#[tactic(auto, using(crate::proofs::UnderLemmas::act_top, crate::proofs::PassedLemmas::down_lam, crate::proofs::PassedLemmas::down_function, crate::proofs::PassedLemmas::down_argument, crate::proofs::PassedLemmas::no_body, crate::proofs::PassedLemmas::no_part, crate::proofs::PassedLemmas::no_child, crate::proofs::PassedLemmas::from_start, crate::proofs::PassedLemmas::at_end))]
pub fn opened_at(
    alloc: Global,
    term: &Term,
    path: &Path,
    first: u32,
) -> Result<Option<Term>, AllocError>
    requires in_range { Manageable (tm term.now) }
    requires numbers { first + length path.now < 2 ^ 32 }
    ensures { IfOk result (λ o. option_map tm o ≡ opened_part_at first path.now (tm term.now)) }
{
    let mut here = term;
    let mut kinds = Vec::new(alloc);
    for step in path.as_slice() {
        match here {
            Term::Lam(kind, body) => {
                if *step != 0 {
                    return Ok(None);
                }
                kinds.push(kind)?;
                here = body;
            }
            Term::App(function, argument) => match *step {
                0 => here = function,
                1 => here = argument,
                _ => return Ok(None),
            },
            Term::Bound(_) | Term::Free(_, _) | Term::Fun(_) | Term::Meta(_, _) => return Ok(None),
        }
    }
    let opening = Passing {
        first,
        kinds: kinds.as_slice(),
    };
    Ok(Some(act_under(alloc, &opening, here, 0)?))
}
