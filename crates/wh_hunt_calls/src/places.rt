//! The places of a call at which a rule may match, but for those below binders.

use std::alloc::{AllocError, Global};
use wh_hunt_terms::{Way, head_of, joined};
use wh_system::System;
use wh_terms::Term;

/// A place at which a rule of a symbol may match.
#[derive(Drop)]
pub struct Place {
    /// The way to the front part of the spine there, which has as many arguments as the symbol's rules need.
    pub way: Way,
    /// The symbol at the head of the spine.
    pub symbol: u32,
    /// Whether the spine is the whole term.
    pub is_whole: bool,
}

// The way to the front part of a spine that is `more` arguments shorter.
fn front_way(alloc: Global, way: &[bool], more: u32) -> Result<Way, AllocError> {
    let mut front = joined(alloc, way, &[])?;
    for _ in 0..more {
        front.push(false)?;
    }
    Ok(front)
}

// The place of the spine, which stands at the end of the way, joins where the spine is a call.
fn add_place(
    alloc: Global,
    system: &System,
    term: &Term,
    way: &[bool],
    places: &mut Vec<Place>,
) -> Result<(), AllocError> {
    let Some(head) = head_of(term) else {
        return Ok(());
    };
    let Some(need) = system.need(head.symbol) else {
        return Ok(());
    };
    let Some(more) = head.arguments.checked_sub(need) else {
        return Ok(());
    };
    places.push(Place {
        way: front_way(alloc, way, more)?,
        symbol: head.symbol,
        is_whole: way.is_empty(),
    })?;
    Ok(())
}

// The places of the term, which begins a spine or is a front part of one, and of its parts join.
fn add_places(
    alloc: Global,
    system: &System,
    term: &Term,
    begins: bool,
    way: &mut Way,
    places: &mut Vec<Place>,
) -> Result<(), AllocError> {
    if begins {
        add_place(alloc, system, term, way, places)?;
    }
    let Term::App(function, argument) = term else {
        return Ok(());
    };
    way.push(false)?;
    add_places(alloc, system, function, false, way, places)?;
    let _ = way.pop();
    way.push(true)?;
    add_places(alloc, system, argument, true, way, places)?;
    let _ = way.pop();
    Ok(())
}

/// The places of the term at which a rule may match, but for those below binders: the whole term first, and a spine
/// before its arguments.
pub fn places_of(alloc: Global, system: &System, term: &Term) -> Result<Vec<Place>, AllocError> {
    let mut places = Vec::new(alloc);
    let mut way = Vec::new(alloc);
    add_places(alloc, system, term, true, &mut way, &mut places)?;
    Ok(places)
}
