//! The calls that a hunt begins at: the left sides of the rules.

use std::alloc::{AllocError, Global};
use wh_hunt_terms::canonical;
use wh_loop_starts::start_of_rule;
use wh_system::System;
use wh_terms::{Metas, Term, type_of};
use wh_types::{SimpleType, counted, sum};

// The term applied to a variable for each argument of the type, numbered from `number` on.
fn applied(alloc: Global, term: Term, kind: &SimpleType, number: u32) -> Result<Term, AllocError> {
    match kind {
        SimpleType::Sort(_) => Ok(term),
        SimpleType::Arrow(argument, rest) => {
            let variable = Term::Free(number, argument.copy(alloc)?);
            let function = Box::new(alloc, term)?;
            let whole = Term::App(function, Box::new(alloc, variable)?);
            applied(alloc, whole, rest, sum(number, 1)?)
        }
    }
}

// The term joins with canonical names.
fn add_start(alloc: Global, term: &Term, starts: &mut Vec<Term>) -> Result<(), AllocError> {
    starts.push(canonical(alloc, term, &[])?)?;
    Ok(())
}

// The left side applied to a variable for each argument of its type, numbered from `first` on, joins.
fn add_whole(
    alloc: Global,
    system: &System,
    start: Term,
    first: u32,
    starts: &mut Vec<Term>,
) -> Result<(), AllocError> {
    let Some(kind) = type_of(alloc, system.signature(), &Metas::new(alloc), &start)? else {
        return Ok(());
    };
    let whole = applied(alloc, start, &kind, first)?;
    add_start(alloc, &whole, starts)
}

// The starts of the rule with the number join.
fn add_starts(
    alloc: Global,
    system: &System,
    number: u32,
    starts: &mut Vec<Term>,
) -> Result<(), AllocError> {
    let Some(rule) = system.rules().get(number as usize) else {
        return Ok(());
    };
    let first = counted(rule.metas.as_slice().len())?;
    let start = start_of_rule(alloc, system, number)?;
    add_start(alloc, &start, starts)?;
    add_whole(alloc, system, start, first, starts)
}

/// The left sides of the rules with a free variable in place of each meta-variable, with canonical names, and behind
/// each the same term with a variable for each argument that its type has. These two are equal where it has none.
pub fn starts_of(alloc: Global, system: &System) -> Result<Vec<Term>, AllocError> {
    let mut starts = Vec::new(alloc);
    for number in 0..system.rules().len() {
        add_starts(alloc, system, counted(number)?, &mut starts)?;
    }
    Ok(starts)
}
