//! Applying a meta-substitution: the value of a meta-term. `apply_meta` is the main function.

ghost use Rattle.std.specs.Prelude.{◌≡◌, IfOk, All};
ghost use Rattle.wh_types.specs.Erase.{ty};
ghost use Rattle.wh_terms.specs.Erase.{tm, tms};
ghost use Rattle.wh_terms.specs.Entries.{bodies, Covers, CoversAll};
ghost use Rattle.wh_terms.specs.Measures.{Manageable};
ghost use Rattle.wh_terms.specs.Value.{Value};
ghost use Rattle.wh_terms.specs.Valued.{valued, all_valued};

use crate::bodies::{body_for, insert};
use crate::subst::MetaSubst;
use crate::term::{Term, Terms};
use std::alloc::{AllocError, Global};
use wh_types::sum;

/// The value of a meta-term: each meta-application is replaced by the body of its meta-variable, and the parameters of
/// the body by the values of the arguments. Each meta-variable of the term is listed, with the number of its arguments.
#[tactic(auto, using(crate::proofs::ValuedLaws::value_of_covered))]
pub fn apply_meta(alloc: Global, by: &MetaSubst, term: &Term) -> Result<Term, AllocError>
    requires term_in_range { Manageable (tm term.now) }
    requires covered { Covers by.now (tm term.now) }
    ensures { IfOk result (λ r. Value (bodies by.now) (tm term.now) (tm r)) }
{
    value_under(alloc, by, term, 0)
}

// The value of a meta-term that stands below `depth` binders.
#[cycle(apply)]
fn value_under(alloc: Global, by: &MetaSubst, term: &Term, depth: u32) -> Result<Term, AllocError>
    requires { Covers by.now (tm term.now) }
    ensures { IfOk result (λ r. tm r ≡ valued depth (bodies by.now) (tm term.now)) }
{
    match term {
        Term::Bound(number) => Ok(Term::Bound(*number)),
        Term::Free(number, kind) => Ok(Term::Free(*number, kind.copy(alloc)?)),
        Term::Fun(symbol) => Ok(Term::Fun(*symbol)),
        Term::Meta(meta, items) => {
            let values = values_under(alloc, by, items, depth)?;
            match body_for(by, *meta) {
                Some(body) => insert(alloc, &body.body, values.as_slice(), depth),
                None => unreachable!(),
            }
        }
        Term::Lam(kind, body) => {
            let kind = kind.copy(alloc)?;
            let body = value_under(alloc, by, body, sum(depth, 1)?)?;
            Ok(Term::Lam(kind, Box::new(alloc, body)?))
        }
        Term::App(function, argument) => {
            let function = Box::new(alloc, value_under(alloc, by, function, depth)?)?;
            Ok(Term::App(
                function,
                Box::new(alloc, value_under(alloc, by, argument, depth)?)?,
            ))
        }
    }
}

// The values of the arguments of a meta-variable, `depth` binders below the root of the term.
#[cycle(apply)]
#[tactic(auto, using(crate::proofs::ValuedLaws::values_push))]
fn values_under(
    alloc: Global,
    by: &MetaSubst,
    items: &Terms,
    depth: u32,
) -> Result<Terms, AllocError>
    requires { CoversAll by.now (tms items.now) }
    ensures { IfOk result (λ r. tms r ≡ all_valued depth (bodies by.now) (tms items.now)) }
{
    let mut values = Terms::new(alloc);
    for item in items.as_slice() {
        values.push(value_under(alloc, by, item, depth)?)?;
    }
    Ok(values)
}
