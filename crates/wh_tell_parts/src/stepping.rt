//! The term behind a single step of a reduction.

use std::alloc::{AllocError, Global};
use wh_step::step_at;
use wh_system::System;
use wh_terms::{Metas, Step, Term, fits, type_of};

/// What the term steps to; `None` where it is no well-typed term that fits, or where there is no such step.
pub fn term_after(
    alloc: Global,
    system: &System,
    term: &Term,
    step: &Step,
) -> Result<Option<Term>, AllocError> {
    system.is_well_made();
    let no_metas = Metas::new(alloc);
    if !fits(term) {
        return Ok(None);
    }
    match type_of(alloc, system.signature(), &no_metas, term)? {
        Some(found) => {
            drop(found);
            step_at(alloc, system.rules(), term, &step.path, step.rule)
        }
        None => Ok(None),
    }
}
