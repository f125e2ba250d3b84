//! Arguments that are abstractions on the left of all rules of a symbol, so that none of them applies to another
//! argument.

use crate::names::number_of;
use crate::spines::{binders_at, symbol_of};
use std::alloc::{AllocError, Global};
use wh_system::System;
use wh_terms::Rule;

/// An argument that is an abstraction on the left of all rules of a symbol.
#[derive(Clone, Copy)]
pub struct Wanted {
    /// The symbol.
    pub symbol: u32,
    /// The argument, counted from 0.
    pub place: u32,
    /// How many abstractions all these left sides begin with there.
    pub binders: u32,
}

/// The arguments that all rules of their symbols want as abstractions.
pub fn wanted_abstractions(alloc: Global, system: &System) -> Result<Vec<Wanted>, AllocError> {
    let mut wanted = Vec::new(alloc);
    for symbol in 0..number_of(system.fun_names().len()) {
        add_wanted(system, symbol, &mut wanted)?;
    }
    Ok(wanted)
}

// Adds the arguments that all rules of this symbol want as abstractions.
fn add_wanted(system: &System, symbol: u32, wanted: &mut Vec<Wanted>) -> Result<(), AllocError> {
    for place in 0..system.need(symbol).unwrap_or(0) {
        let binders = binders_wanted(system.rules(), symbol, place);
        if binders > 0 {
            wanted.push(Wanted {
                symbol,
                place,
                binders,
            })?;
        }
    }
    Ok(())
}

// How many abstractions the argument begins with on the left of each rule of the symbol, at least.
fn binders_wanted(rules: &[Rule], symbol: u32, place: u32) -> u32 {
    let mut least = u32::MAX;
    for rule in rules {
        if symbol_of(&rule.left) == Some(symbol) {
            least = least.min(binders_at(&rule.left, place));
        }
    }
    if least == u32::MAX { 0 } else { least }
}
