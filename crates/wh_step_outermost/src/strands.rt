//! Strands: the path of a step in a term with the part that it leads to, and without the parts beside the path.

ghost use Rattle.std.specs.Prelude.{◌≡◌, IfOk, Some};
ghost use Rattle.wh_terms.specs.Tree.{Tm};
ghost use Rattle.wh_terms.specs.Places.{part_at};
ghost use Rattle.wh_terms.specs.Erase.{tm};
ghost use Rattle.wh_step.specs.Roots.{put_at};
ghost use Rattle.wh_step_outermost.specs.Strands.{strand};

use std::alloc::{AllocError, Global};
use wh_terms::{Term, copy_term};

/// The term along the path: the part at the path as it stands, and one symbol in place of each part beside the path.
#[tactic(auto, using(crate::proofs::StrandLaws::strand_here, crate::proofs::StrandLaws::strand_in_function, crate::proofs::StrandLaws::strand_in_argument, crate::proofs::StrandLaws::strand_in_body))]
pub fn strand(alloc: Global, term: &Term, path: &[u8]) -> Result<Term, AllocError>
    ensures { IfOk result (λ r. tm r ≡ strand path.now (tm term.now)) }
{
    let Some((step, rest)) = path.split_first() else {
        return copy_term(alloc, term);
    };
    match term {
        Term::App(function, argument) => {
            let beside = Box::new(alloc, Term::Fun(0))?;
            if *step == 0 {
                let function = strand(alloc, function, rest)?;
                Ok(Term::App(Box::new(alloc, function)?, beside))
            } else {
                let argument = strand(alloc, argument, rest)?;
                Ok(Term::App(beside, Box::new(alloc, argument)?))
            }
        }
        Term::Lam(kind, body) => {
            let kind = kind.copy(alloc)?;
            let body = strand(alloc, body, rest)?;
            Ok(Term::Lam(kind, Box::new(alloc, body)?))
        }
        _ => copy_term(alloc, term),
    }
}

/// The part of the term at the path.
pub fn part_of(term: Term, path: &[u8]) -> Term
    requires there { (r : Tm) × (part_at path.now (tm term) ≡ Some r) }
    ensures { part_at path.now (tm term) ≡ Some (tm result) }
{
    let Some((step, rest)) = path.split_first() else {
        return term;
    };
    match term {
        Term::App(function, argument) => {
            if *step == 0 {
                part_of(Box::into_inner(function), rest)
            } else {
                part_of(Box::into_inner(argument), rest)
            }
        }
        Term::Lam(_, body) => part_of(Box::into_inner(body), rest),
        Term::Bound(_) | Term::Free(_, _) | Term::Fun(_) | Term::Meta(_, _) => unreachable!(),
    }
}

/// Puts `value` in place of the part at the path; what stands around it is not touched.
#[tactic(auto, using(wh_step::proofs::PlaceLemmas::put_here, wh_step::proofs::PlaceLemmas::put_in_function, wh_step::proofs::PlaceLemmas::put_in_argument, wh_step::proofs::PlaceLemmas::put_in_body))]
pub fn put(term: &mut Term, path: &[u8], value: Term)
    ensures { tm term.new ≡ put_at path.now (tm value) (tm term.old) }
{
    let Some((step, rest)) = path.split_first() else {
        *term = value;
        return;
    };
    match term {
        Term::App(function, argument) => {
            if *step == 0 {
                put(function, rest, value)
            } else {
                put(argument, rest, value)
            }
        }
        Term::Lam(_, body) => put(body, rest, value),
        Term::Bound(_) | Term::Free(_, _) | Term::Fun(_) | Term::Meta(_, _) => {}
    }
}
