//! Copies of terms. A term owns its parts, so a caller that keeps a term copies it.

ghost use Rattle.std.specs.Prelude.{◌≡◌, IfOk};
ghost use Rattle.wh_terms.specs.Erase.{tm, tms};

use crate::term::{Term, Terms};
use std::alloc::{AllocError, Global};

/// An equal term.
#[cycle(copy)]
pub fn copy_term(alloc: Global, t: &Term) -> Result<Term, AllocError>
    ensures { IfOk result (λ r. tm r ≡ tm t.now) }
{
    match t {
        Term::Bound(number) => Ok(Term::Bound(*number)),
        Term::Free(number, kind) => Ok(Term::Free(*number, kind.copy(alloc)?)),
        Term::Fun(symbol) => Ok(Term::Fun(*symbol)),
        Term::Meta(meta, items) => Ok(Term::Meta(*meta, copy_terms(alloc, items)?)),
        Term::Lam(kind, body) => {
            let kind = kind.copy(alloc)?;
            Ok(Term::Lam(kind, Box::new(alloc, copy_term(alloc, body)?)?))
        }
        Term::App(function, argument) => {
            let function = Box::new(alloc, copy_term(alloc, function)?)?;
            Ok(Term::App(function, Box::new(alloc, copy_term(alloc, argument)?)?))
        }
    }
}

// Equal terms in the same order.
#[cycle(copy)]
#[tactic(auto, using(crate::proofs::TermLemmas::tms_push))]
fn copy_terms(alloc: Global, items: &Terms) -> Result<Terms, AllocError>
    ensures { IfOk result (λ r. tms r ≡ tms items.now) }
{
    let mut copies = Terms::new(alloc);
    for item in items.as_slice() {
        copies.push(copy_term(alloc, item)?)?;
    }
    Ok(copies)
}
