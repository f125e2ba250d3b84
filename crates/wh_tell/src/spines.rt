//! Heads and arguments of terms, for sentences about them.

use std::alloc::{AllocError, Global};
use wh_terms::{Term, Terms};
use wh_types::SimpleType;

/// The head of a spine.
pub fn head_of(term: &Term) -> &Term {
    let mut here = term;
    while let Term::App(function, _) = here {
        here = function;
    }
    here
}

/// The symbol that heads a spine.
pub fn symbol_of(term: &Term) -> Option<u32> {
    match head_of(term) {
        Term::Fun(symbol) => Some(*symbol),
        _ => None,
    }
}

/// The arguments of a spine, in order.
pub fn arguments_of<'a>(alloc: Global, term: &'a Term) -> Result<Vec<&'a Term>, AllocError> {
    let mut found = Vec::new(alloc);
    let mut here = term;
    while let Term::App(function, argument) = here {
        found.push(&**argument)?;
        here = function;
    }
    found.reverse();
    Ok(found)
}

/// How many arguments a spine has.
pub fn count_arguments(term: &Term) -> u32 {
    let mut count: u32 = 0;
    let mut here = term;
    while let Term::App(function, _) = here {
        count = count.saturating_add(1);
        here = function;
    }
    count
}

/// How many abstractions the argument of that index, counted from 0, begins with; 0 where there is no such argument.
pub fn binders_at(term: &Term, index: u32) -> u32 {
    let mut place = count_arguments(term);
    let mut count: u32 = 0;
    let mut here = term;
    while let Term::App(function, argument) = here {
        place = place.saturating_sub(1);
        if place == index {
            count = binders_of(argument);
        }
        here = function;
    }
    count
}

/// How many abstractions a term begins with.
pub fn binders_of(term: &Term) -> u32 {
    let mut count: u32 = 0;
    let mut here = term;
    while let Term::Lam(_, body) = here {
        count = count.saturating_add(1);
        here = body;
    }
    count
}

/// The body behind these abstractions.
pub fn body_of(term: &Term) -> &Term {
    let mut here = term;
    while let Term::Lam(_, body) = here {
        here = body;
    }
    here
}

/// The type of the argument of that index, counted from 0; `None` where the type has fewer arguments.
pub fn argument_type(kind: &SimpleType, index: u32) -> Option<&SimpleType> {
    let mut left = index;
    let mut here = kind;
    while let SimpleType::Arrow(first, rest) = here {
        if left == 0 {
            return Some(first);
        }
        left -= 1;
        here = rest;
    }
    None
}

/// How often the meta-variable occurs in the term.
#[cycle(counting)]
pub fn count_meta(meta: u32, term: &Term) -> u32 {
    match term {
        Term::Bound(_) | Term::Free(..) | Term::Fun(_) => 0,
        Term::Meta(number, items) => {
            let here = if *number == meta { 1 } else { 0 };
            count_in(meta, items).saturating_add(here)
        }
        Term::Lam(_, body) => count_meta(meta, body),
        Term::App(function, argument) => {
            count_meta(meta, function).saturating_add(count_meta(meta, argument))
        }
    }
}

// How often the meta-variable occurs in the terms of a list.
#[cycle(counting)]
fn count_in(meta: u32, items: &Terms) -> u32 {
    let mut count: u32 = 0;
    for item in items.as_slice() {
        count = count.saturating_add(count_meta(meta, item));
    }
    count
}

/// Whether the symbol stands in the term.
#[cycle(finding)]
pub fn has_symbol(symbol: u32, term: &Term) -> bool {
    match term {
        Term::Bound(_) | Term::Free(..) => false,
        Term::Fun(other) => *other == symbol,
        Term::Meta(_, items) => symbol_in(symbol, items),
        Term::Lam(_, body) => has_symbol(symbol, body),
        Term::App(function, argument) => {
            has_symbol(symbol, function) || has_symbol(symbol, argument)
        }
    }
}

// Whether the symbol stands in one of the terms of a list.
#[cycle(finding)]
fn symbol_in(symbol: u32, items: &Terms) -> bool {
    for item in items.as_slice() {
        if has_symbol(symbol, item) {
            return true;
        }
    }
    false
}
