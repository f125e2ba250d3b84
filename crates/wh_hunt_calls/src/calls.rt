//! The calls in what a step leads to, but for those that stood in the call before it.

use crate::plan::is_call;
use std::alloc::{AllocError, Global};
use wh_hunt_terms::{Way, canonical, joined, room_behind};
use wh_system::System;
use wh_terms::{Term, same};
use wh_types::SimpleType;

/// A call in a term.
#[derive(Drop)]
pub struct FoundCall {
    /// The way to it.
    pub way: Way,
    /// The call with canonical names. The binders on the way to it are opened.
    pub term: Term,
}

// What is looked for.
#[derive(Clone, Copy)]
struct Looking<'a> {
    system: &'a System,
    // the call before the step
    before: &'a Term,
    // the greatest size of a call
    room: u32,
}

// Where the walk stands, and what it found.
#[derive(Drop)]
struct Walk<'a> {
    way: Way,
    // the types of the binders on the way
    passed: Vec<&'a SimpleType>,
    found: Vec<FoundCall>,
}

// Whether the call is an argument of the spine or stands in one, not below a binder.
fn is_in_arguments(call: &Term, spine: &Term) -> bool {
    match spine {
        Term::App(function, argument) => {
            same(call, argument)
                || is_in_arguments(call, argument)
                || is_in_arguments(call, function)
        }
        _ => false,
    }
}

// Whether the term is one of the calls that are looked for.
fn is_wanted(looking: &Looking<'_>, term: &Term) -> bool {
    is_call(looking.system, term)
        && room_behind(term, looking.room).is_some()
        && !is_in_arguments(term, looking.before)
}

// The call at which the walk stands.
fn call_here(alloc: Global, walk: &Walk<'_>, term: &Term) -> Result<FoundCall, AllocError> {
    Ok(FoundCall {
        way: joined(alloc, &walk.way, &[])?,
        term: canonical(alloc, term, &walk.passed)?,
    })
}

// Goes through the term, which begins a spine or is a front part of one, and through its parts.
fn walk_through<'a>(
    alloc: Global,
    looking: &Looking<'_>,
    term: &'a Term,
    begins: bool,
    walk: &mut Walk<'a>,
) -> Result<(), AllocError> {
    if begins && is_wanted(looking, term) {
        let call = call_here(alloc, walk, term)?;
        walk.found.push(call)?;
    }
    match term {
        Term::App(function, argument) => {
            walk.way.push(false)?;
            walk_through(alloc, looking, function, false, walk)?;
            let _ = walk.way.pop();
            walk.way.push(true)?;
            walk_through(alloc, looking, argument, true, walk)?;
            let _ = walk.way.pop();
            Ok(())
        }
        Term::Lam(kind, body) => {
            walk.passed.push(kind)?;
            walk.way.push(false)?;
            walk_through(alloc, looking, body, true, walk)?;
            let _ = walk.way.pop();
            let _ = walk.passed.pop();
            Ok(())
        }
        Term::Bound(_) | Term::Free(..) | Term::Fun(_) | Term::Meta(..) => Ok(()),
    }
}

/// The calls in the term that have no more nodes than there is room for, and that are no arguments of the call before
/// the step nor stand in one: a call before those in its arguments, and these from left to right.
pub fn calls_in(
    alloc: Global,
    system: &System,
    before: &Term,
    term: &Term,
    room: u32,
) -> Result<Vec<FoundCall>, AllocError> {
    let looking = Looking {
        system,
        before,
        room,
    };
    let mut walk = Walk {
        way: Vec::new(alloc),
        passed: Vec::new(alloc),
        found: Vec::new(alloc),
    };
    walk_through(alloc, &looking, term, true, &mut walk)?;
    Ok(walk.found)
}
