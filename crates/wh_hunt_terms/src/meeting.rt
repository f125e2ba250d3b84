//! Instances: a term laid beside another, so that it is seen what its variables stand for.

use crate::checked::has_type;
use std::alloc::{AllocError, Global};
use wh_system::System;
use wh_terms::{Term, same};
use wh_types::{SimpleType, same_type};

/// What stands in the place of a free variable.
#[derive(Clone, Copy)]
pub struct Met<'a> {
    /// The variable's number.
    pub number: u32,
    /// The variable's type.
    pub kind: &'a SimpleType,
    /// What stands in its place.
    pub value: &'a Term,
}

// The part stands in the place of the variable: whether nothing else did so before.
fn meets_variable<'a>(
    number: u32,
    kind: &'a SimpleType,
    part: &'a Term,
    found: &mut Vec<Met<'a>>,
) -> Result<bool, AllocError> {
    for met in found.iter() {
        if met.number == number {
            return Ok(same(met.value, part));
        }
    }
    found.push(Met {
        number,
        kind,
        value: part,
    })?;
    Ok(true)
}

// Whether the part is the term with other terms for its variables, where some have been met before; what is met now
// joins them. A variable at the head of a spine takes the front of a longer one.
fn meets<'a>(term: &'a Term, part: &'a Term, found: &mut Vec<Met<'a>>) -> Result<bool, AllocError> {
    match term {
        Term::Free(number, kind) => meets_variable(*number, kind, part, found),
        Term::Bound(_) | Term::Fun(_) | Term::Meta(..) => Ok(same(term, part)),
        Term::Lam(kind, body) => match part {
            Term::Lam(other, other_body) => {
                Ok(same_type(other, kind) && meets(body, other_body, found)?)
            }
            _ => Ok(false),
        },
        Term::App(function, argument) => match part {
            Term::App(other, other_argument) => {
                Ok(meets(function, other, found)? && meets(argument, other_argument, found)?)
            }
            _ => Ok(false),
        },
    }
}

// Whether each value has the type of its variable.
fn are_typed(alloc: Global, system: &System, found: &[Met<'_>]) -> Result<bool, AllocError> {
    for met in found {
        if !has_type(alloc, system, met.value, met.kind)? {
            return Ok(false);
        }
    }
    Ok(true)
}

/// What stands for the variables of the term so that it becomes the part, in the order of the variables' first places;
/// `None` where the part is no instance of the term, or a value has not its variable's type.
pub fn instance_of<'a>(
    alloc: Global,
    system: &System,
    term: &'a Term,
    part: &'a Term,
) -> Result<Option<Vec<Met<'a>>>, AllocError> {
    let mut found = Vec::new(alloc);
    if meets(term, part, &mut found)? && are_typed(alloc, system, &found)? {
        Ok(Some(found))
    } else {
        Ok(None)
    }
}
