//! The rules of each symbol, and which terms are calls.

use std::alloc::{AllocError, Global};
use wh_hunt_terms::head_of;
use wh_loop_steps::{Table, table_of_rules};
use wh_system::System;
use wh_terms::Term;

/// A system, with the numbers of the rules of each symbol.
#[derive(Drop)]
pub struct Plan<'a> {
    /// The system.
    pub system: &'a System,
    table: Table,
}

impl<'a> Plan<'a> {
    /// The numbers of the rules of the symbol.
    pub fn rules_of(&self, symbol: u32) -> &[u32] {
        if (symbol as usize) < self.table.len() {
            self.table.row(symbol as usize)
        } else {
            &[]
        }
    }
}

/// The system with the numbers of the rules of each symbol.
pub fn plan_of<'a>(alloc: Global, system: &'a System) -> Result<Plan<'a>, AllocError> {
    system.is_well_made();
    let symbols = system.signature().funs.as_slice().len();
    let table = table_of_rules(alloc, system.rules(), symbols)?;
    Ok(Plan { system, table })
}

/// Whether the term is a call: a symbol that has rules, with as many arguments as these need or more.
pub fn is_call(system: &System, term: &Term) -> bool {
    match head_of(term) {
        Some(head) => match system.need(head.symbol) {
            Some(need) => need <= head.arguments,
            None => false,
        },
        None => false,
    }
}
