//! Calls that need to know something of a term, behind a test of it.

ghost use Rattle.std.specs.Prelude.{IsTrue};
ghost use Rattle.wh_terms.specs.Erase.{tm};
ghost use Rattle.wh_terms.specs.Sight.{IsTerm, LooseBelow};

use std::alloc::{AllocError, Global};
use wh_loop_steps::reduct_by;
use wh_step::replay;
use wh_system::System;
use wh_system_making::raw_term;
use wh_terms::{MOST_SIZE, Metas, Path, Step, Term, fits, opened_at, type_of};
use wh_text::{RawTerm, RawType};
use wh_types::{SimpleType, same_type};

// Whether the tree below `depth` binders is a term without variables that are loose outside of these.
fn is_shut(term: &Term, depth: u32) -> bool
    ensures { IsTrue result → LooseBelow depth (tm term.now) × IsTerm (tm term.now) }
{
    match term {
        Term::Bound(number) => *number < depth,
        Term::Free(..) | Term::Fun(_) => true,
        Term::Meta(..) => false,
        Term::Lam(_, body) => match depth.checked_add(1) {
            Some(inner) => is_shut(body, inner),
            None => false,
        },
        Term::App(function, argument) => is_shut(function, depth) && is_shut(argument, depth),
    }
}

/// What the step leads to; `None` where there is no such step, or its result does not fit or has above 2,048 nodes.
pub fn reduct_by_step(
    alloc: Global,
    system: &System,
    term: &Term,
    step: &Step,
) -> Result<Option<Term>, AllocError> {
    system.is_well_made();
    if fits(term) && is_shut(term, 0) {
        reduct_by(alloc, system.rules(), term, step)
    } else {
        Ok(None)
    }
}

/// The term that the steps lead to; `None` where one of them does not apply, or its result does not fit.
pub fn last_of(
    alloc: Global,
    system: &System,
    term: &Term,
    steps: &[Step],
) -> Result<Option<Term>, AllocError> {
    system.is_well_made();
    let few = steps.len() <= MOST_SIZE as usize;
    if few && fits(term) && is_shut(term, 0) {
        Ok(replay(alloc, system.rules(), term, steps)?.ok())
    } else {
        Ok(None)
    }
}

/// The part of the term at the path, where each binder on the way is opened by a free variable, and these are numbered
/// from `first` on; `None` where there is no such part.
pub fn opened_part(
    alloc: Global,
    term: &Term,
    path: &Path,
    first: u32,
) -> Result<Option<Term>, AllocError> {
    let short = path.as_slice().len() <= MOST_SIZE as usize && first <= MOST_SIZE;
    if short && fits(term) && is_shut(term, 0) {
        opened_at(alloc, term, path, first)
    } else {
        Ok(None)
    }
}

/// Whether the term has that type.
pub fn has_type(
    alloc: Global,
    system: &System,
    term: &Term,
    kind: &SimpleType,
) -> Result<bool, AllocError> {
    match type_of(alloc, system.signature(), &Metas::new(alloc), term)? {
        Some(found) => Ok(same_type(&found, kind)),
        None => Ok(false),
    }
}

/// The raw tree of the term, with canonical names; `None` where it has no type.
pub fn raw_of(alloc: Global, system: &System, term: &Term) -> Result<Option<RawTerm>, AllocError> {
    match type_of(alloc, system.signature(), &Metas::new(alloc), term)? {
        Some(_) => Ok(Some(raw_term(alloc, system, term)?)),
        None => Ok(None),
    }
}

// The type of the variable that the raw tree is.
fn kind_in(raw: RawTerm) -> Option<RawType> {
    match raw {
        RawTerm::Free(_, kind, _) => Some(Box::into_inner(kind)),
        _ => None,
    }
}

// The raw tree of a variable of the type.
fn raw_variable(
    alloc: Global,
    system: &System,
    kind: &SimpleType,
) -> Result<Option<RawTerm>, AllocError> {
    let variable = Term::Free(0, kind.copy(alloc)?);
    raw_of(alloc, system, &variable)
}

/// The raw tree of the type; `None` where a sort of it is none of the system's.
pub fn raw_kind_of(
    alloc: Global,
    system: &System,
    kind: &SimpleType,
) -> Result<Option<RawType>, AllocError> {
    match raw_variable(alloc, system, kind)? {
        Some(raw) => Ok(kind_in(raw)),
        None => Ok(None),
    }
}
