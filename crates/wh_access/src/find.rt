//! The search for ranks under which a system is passing. `find_ranks` gathers the demands of all rules and meets them.

ghost use Rattle.std.specs.Prelude.{◌≡◌, ◌≤◌, All, IfOk, length};
ghost use Rattle.wh_types.specs.Limits.{greatest_number, most_sorts};
ghost use Rattle.wh_access.specs.Found.{HasDemands, IsCause, IsCycleIn, IsUnread, MeetTold};
ghost use Rattle.wh_access.specs.Passing.{AllRead, IsPassing};
ghost use Rattle.wh_system.specs.SystemView.{system_data};
ghost use Rattle.wh_types.specs.Outcome.{IfBecause, MatchOr};

use crate::demands::{Demands, ask_rule};
use crate::sources::{sources, strict_return, way_from};
use std::alloc::Global;
use wh_system::System;
use wh_types::{Numbers, Or, Ranks};

/// Why a system is passing under no ranks.
#[derive(Drop)]
pub enum NoRanks {
    /// A meta-variable of a right side is not read in the left side.
    Unread {
        /// The rule, by its index.
        rule: u32,
        /// The meta-variable, by its number.
        meta: u32,
    },
    /// Each meta-variable of a right side is read, and demands lead from each of these sorts to the next and from the
    /// last to the first. At least one of these demands is strict.
    Cycle(Numbers),
}

/// Ranks under which the system is passing, one for each sort and none above 65,535.
///
/// # Errors
///
/// `Unread` names the first rule, and in it the least meta-variable by number, whose right side uses what its left side
/// does not read. Where all is read, `Cycle` lists the sorts of a cycle of demands, each once, of which at least one is
/// strict: no ranks meet these.
pub fn find_ranks(alloc: Global, system: &System) -> Result<Ranks, Or<NoRanks>>
    ensures passing { IfOk result (IsPassing (system_data system.now)) }
    ensures each { IfOk result (λ ranks. length ranks ≡ (system_data system.now).symbols.sorts) }
    ensures low { IfOk result (λ ranks. All (λ r. r ≤ greatest_number) ranks) }
    ensures cause { IfBecause result (IsCause (system_data system.now)) }
{
    system.is_well_made();
    let demands = demands_of(alloc, system)?;
    Ok(ranks_for(alloc, &demands, system.signature().sorts)?)
}

// What the rules of the system demand.
fn demands_of(alloc: Global, system: &System) -> Result<Demands, Or<NoRanks>>
    ensures { MatchOr result (λ demands. AllRead (system_data system.now).rules × HasDemands (system_data system.now) demands)
        (IsUnread (system_data system.now).rules) }
{
    system.is_well_made();
    let mut demands = Demands::new(alloc)?;
    for (index, rule) in system.rules().iter().enumerate() {
        if let Some(meta) = ask_rule(system.signature(), &mut demands, rule) {
            return Err(Or::Because(NoRanks::Unread {
                rule: index as u32,
                meta,
            }));
        }
    }
    Ok(demands)
}

// Ranks that meet the demands, or a cycle of demands with a strict one: the rank of a sort is the number of the other
// sorts from which demands lead to it.
fn ranks_for(alloc: Global, demands: &Demands, sorts: u32) -> Result<Ranks, Or<NoRanks>>
    requires { sorts ≤ most_sorts }
    ensures { MatchOr result (MeetTold demands.now sorts) (IsCycleIn demands.now sorts) }
{
    let mut numbers = Vec::new(alloc);
    for sort in 0..sorts {
        let found = sources(alloc, demands, sorts, sort)?;
        if let Some(start) = strict_return(demands, sort, &found) {
            let way = way_from(alloc, &found, start)?;
            return Err(Or::Because(NoRanks::Cycle(way)));
        }
        numbers.push(found.len() as u32 - 1)?;
    }
    Ok(Ranks::new(alloc, &numbers)?)
}
