//! Measuring the contractum of a step before it is built.
//!
//! The walks go over the parts that it is built from: the right side of the rule, and each body as often as its
//! meta-variable occurs. What stands for a parameter of a body is measured once for each such occurrence, and the
//! body's walk takes the measures in place of the term. A walk stops at the first part that is past a limit.

ghost use Rattle.std.specs.Prelude.{ℕ, IfOk};
ghost use Rattle.wh_types.specs.Erase.{ty};
ghost use Rattle.wh_terms.specs.Tree.{Tm, Tms, free};
ghost use Rattle.wh_terms.specs.Erase.{tm, tms};
ghost use Rattle.wh_terms.specs.Sight.{IsTerm, Occurs};
ghost use Rattle.wh_terms.specs.Substitution.{act};
ghost use Rattle.wh_terms.specs.Under.{ups, ups_free, moved};
ghost use Rattle.wh_terms.specs.Value.{parameters};
ghost use Rattle.wh_terms.specs.Entries.{bodies, Covers, CoversAll};
ghost use Rattle.wh_terms.specs.Valued.{valued, all_valued};
ghost use Rattle.wh_step.specs.Contracta.{IsReady, TermsFor, AllTermsFor, result_of};
ghost use Rattle.wh_step.specs.Extents.{Measures, Knows, AllKnown};

use crate::extent::{Extent, PastLimit};
use crate::redex::Contractum;
use crate::weighing::{abstracted, applied, leaf};
use std::alloc::{AllocError, Global};
use wh_terms::{MetaSubst, Term, Terms, body_for};
use wh_types::Or;

/// What is known of a term after it was measured.
pub fn known(measured: Result<Extent, Or<PastLimit>>) -> Result<Option<Extent>, AllocError>
    ensures { (t : Tm) → Measures t measured → IfOk result (Knows t) }
{
    match measured {
        Ok(extent) => Ok(Some(extent)),
        Err(Or::Because(PastLimit)) => Ok(None),
        Err(Or::NoMemory) => Err(AllocError),
    }
}

// The extent of what stands for a loose variable of a body, where `depth` binders of the body were passed.
fn variable_extent(
    number: u32,
    values: &[Option<Extent>],
    depth: u32,
) -> Result<Extent, Or<PastLimit>>
    ensures { (ts : Tms) (k : ℕ) → AllKnown ts values.now → Measures (ups depth (parameters ts (moved k)) number) result }
{
    if number < depth {
        return Ok(leaf());
    }
    let inward = (number - depth) as usize;
    if inward < values.len() {
        values[values.len() - 1 - inward].ok_or(Or::Because(PastLimit))
    } else {
        Ok(leaf())
    }
}

// The extent of a body with the values for its parameters, `depth` binders below its own root.
fn extent_of(term: &Term, values: &[Option<Extent>], depth: u32) -> Result<Extent, Or<PastLimit>>
    requires { IsTerm (tm term.now) }
    ensures { (ts : Tms) (k : ℕ) → AllKnown ts values.now
        → Measures (act (ups depth (parameters ts (moved k))) (ups_free depth free) (tm term.now)) result }
{
    match term {
        Term::Bound(number) => variable_extent(*number, values, depth),
        Term::Free(_, _) => Ok(leaf()),
        Term::Fun(_) => Ok(leaf()),
        Term::Meta(_, _) => unreachable!(),
        Term::Lam(_, body) => {
            let inner = depth.checked_add(1).ok_or(Or::NoMemory)?;
            abstracted(extent_of(body, values, inner))
        }
        Term::App(function, argument) => {
            let front = extent_of(function, values, depth)?;
            applied(front, extent_of(argument, values, depth))
        }
    }
}

// The extent of the value of a part of a right side, below any number of its binders.
#[cycle(value_extent)]
fn value_extent(alloc: Global, by: &MetaSubst, term: &Term) -> Result<Extent, Or<PastLimit>>
    requires covered { Covers by.now (tm term.now) }
    requires terms { TermsFor by.now (tm term.now) }
    ensures { (k : ℕ) → Measures (valued k (bodies by.now) (tm term.now)) result }
{
    match term {
        Term::Bound(_) => Ok(leaf()),
        Term::Free(_, _) => Ok(leaf()),
        Term::Fun(_) => Ok(leaf()),
        Term::Meta(meta, items) => {
            let values = value_extents(alloc, by, items)?;
            match body_for(by, *meta) {
                Some(body) => extent_of(&body.body, values.as_slice(), 0),
                None => unreachable!(),
            }
        }
        Term::Lam(_, body) => abstracted(value_extent(alloc, by, body)),
        Term::App(function, argument) => {
            let front = value_extent(alloc, by, function)?;
            applied(front, value_extent(alloc, by, argument))
        }
    }
}

// What is known of the values of the arguments of a meta-variable.
#[cycle(value_extent)]
fn value_extents(
    alloc: Global,
    by: &MetaSubst,
    items: &Terms,
) -> Result<Vec<Option<Extent>>, AllocError>
    requires covered { CoversAll by.now (tms items.now) }
    requires terms { AllTermsFor by.now (tms items.now) }
    ensures { IfOk result (λ r. (k : ℕ) → AllKnown (all_valued k (bodies by.now) (tms items.now)) r.items) }
{
    let mut values = Vec::new(alloc);
    for item in items.as_slice() {
        values.push(known(value_extent(alloc, by, item))?)?;
    }
    Ok(values)
}

/// The extent of the result of a step at the root.
pub fn contractum_extent(
    alloc: Global,
    contractum: &Contractum<'_>,
) -> Result<Extent, Or<PastLimit>>
    requires { IsReady contractum.now }
    ensures { Measures (result_of contractum.now) result }
{
    match contractum {
        Contractum::Opened(body, argument) => {
            let value = known(extent_of(argument, &[], 0))?;
            extent_of(body, &[value], 0)
        }
        Contractum::Instance(right, bodies) => value_extent(alloc, bodies, right),
    }
}
