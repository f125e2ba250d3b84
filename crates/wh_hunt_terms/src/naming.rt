//! Canonical names: the free variables of a term numbered in the order in which they stand in it.

use std::alloc::{AllocError, Global};
use wh_terms::{Term, copy_term};
use wh_types::{SimpleType, counted, sum};

// The key of a free variable.
fn key_of_variable(number: u32) -> u64 {
    u64::from(number).wrapping_mul(2)
}

// The key of a binder that was passed.
fn key_of_binder(number: usize) -> u64 {
    (number as u64).wrapping_mul(2).wrapping_add(1)
}

// The canonical number of the variable with the key; one that did not stand before takes the next number.
fn number_of(names: &mut Vec<u64>, key: u64) -> Result<u32, AllocError> {
    for (number, name) in names.iter().enumerate() {
        if *name == key {
            return counted(number);
        }
    }
    let number = counted(names.len())?;
    names.push(key)?;
    Ok(number)
}

// The place from the outermost on of the binder that is `inward` places before the nearest one, of as many as `count`.
fn place_of_binder(count: usize, inward: u32) -> Option<usize> {
    let last = count.checked_sub(1)?;
    last.checked_sub(inward as usize)
}

// The free variable for the binder at that place; `None` where there is none.
fn variable_for(
    alloc: Global,
    place: usize,
    passed: &[&SimpleType],
    names: &mut Vec<u64>,
) -> Result<Option<Term>, AllocError> {
    match passed.get(place) {
        Some(kind) => {
            let kind = kind.copy(alloc)?;
            let number = number_of(names, key_of_binder(place))?;
            Ok(Some(Term::Free(number, kind)))
        }
        None => Ok(None),
    }
}

// A bound variable of the term, `depth` binders below its root: a variable of one of the binders that were passed on
// the way to the term becomes a free one.
fn opened(
    alloc: Global,
    number: u32,
    depth: u32,
    passed: &[&SimpleType],
    names: &mut Vec<u64>,
) -> Result<Term, AllocError> {
    if number < depth {
        return Ok(Term::Bound(number));
    }
    let Some(place) = place_of_binder(passed.len(), number - depth) else {
        return Ok(Term::Bound(number));
    };
    match variable_for(alloc, place, passed, names)? {
        Some(variable) => Ok(variable),
        None => Ok(Term::Bound(number)),
    }
}

// The term, which stands `depth` binders below the root, with canonical names.
fn renamed(
    alloc: Global,
    term: &Term,
    depth: u32,
    passed: &[&SimpleType],
    names: &mut Vec<u64>,
) -> Result<Term, AllocError> {
    match term {
        Term::Bound(number) => opened(alloc, *number, depth, passed, names),
        Term::Free(number, kind) => {
            let kind = kind.copy(alloc)?;
            Ok(Term::Free(number_of(names, key_of_variable(*number))?, kind))
        }
        Term::Lam(kind, body) => {
            let kind = kind.copy(alloc)?;
            let body = renamed(alloc, body, sum(depth, 1)?, passed, names)?;
            Ok(Term::Lam(kind, Box::new(alloc, body)?))
        }
        Term::App(function, argument) => {
            let function = renamed(alloc, function, depth, passed, names)?;
            let function = Box::new(alloc, function)?;
            let argument = renamed(alloc, argument, depth, passed, names)?;
            Ok(Term::App(function, Box::new(alloc, argument)?))
        }
        Term::Fun(_) | Term::Meta(..) => copy_term(alloc, term),
    }
}

/// The term with free variables numbered from 0 on in the order of their first places. Variables of binders that were
/// passed on the way to it, which have these types from the outermost on, become free ones. So two calls are equal up
/// to names exactly where their canonical terms are equal.
pub fn canonical(alloc: Global, term: &Term, passed: &[&SimpleType]) -> Result<Term, AllocError> {
    let mut names = Vec::new(alloc);
    renamed(alloc, term, 0, passed, &mut names)
}
