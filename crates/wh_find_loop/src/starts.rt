//! What the search stands on: the starts of the rules, and the rules of each symbol.

ghost use Rattle.std.specs.Prelude.{◌≡◌, ◌≤◌, ◌<◌, ℕ, IfOk, length};
ghost use Rattle.wh_system.specs.SystemView.{system_data};
ghost use Rattle.wh_find_loop.specs.Searching.{AreStarts, IsPlan};

use std::alloc::{AllocError, Global};
use wh_loop_starts::start_of_rule;
use wh_loop_steps::{Table, table_of_rules};
use wh_system::System;
use wh_terms::Term;

/// The starts of the rules by number, and the numbers of the rules of each symbol.
#[derive(Drop)]
pub struct Plan {
    pub starts: Vec<Term>,
    pub table: Table,
}

/// The starts of a system's rules, and the rules of each of its symbols.
pub fn plan_of(alloc: Global, system: &System) -> Result<Plan, AllocError>
    ensures { IfOk result (IsPlan (system_data system.now)) }
{
    system.is_well_made();
    let symbols = system.signature().funs.as_slice().len();
    let table = table_of_rules(alloc, system.rules(), symbols)?;
    let starts = starts_of(alloc, system)?;
    Ok(Plan { starts, table })
}

// The starts of the rules by number.
fn starts_of(alloc: Global, system: &System) -> Result<Vec<Term>, AllocError>
    ensures { IfOk result (λ starts. AreStarts (system_data system.now) starts.items) }
{
    system.is_well_made();
    let mut starts = Vec::new(alloc);
    for number in 0..system.rules().len() {
        starts.push(start_of_rule(alloc, system, number as u32)?)?;
    }
    Ok(starts)
}
