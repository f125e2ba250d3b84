//! The sorts from which demands lead to a goal, each with the next entry on its way there: so a cycle of demands can be
//! listed.

ghost use Rattle.std.specs.Prelude.{◌≢◌, ◌+◌, ◌<◌, ◌≤◌, IfOk, OnOk, MatchOption, length};
ghost use Rattle.wh_types.specs.Limits.{most_sorts};
ghost use Rattle.wh_access.specs.Sources.{AreSources, Begun, IsWay, LeadsBy, Marks, next_at, sort_at};
ghost use Rattle.wh_access.specs.Tables.{LeadsIn, LeadsStrictlyIn};

use crate::demands::Demands;
use std::alloc::{AllocError, Global};
use wh_types::Numbers;

/// A sort from which demands lead to a goal.
#[derive(Clone, Copy)]
pub struct Source {
    /// The sort.
    pub sort: u32,
    /// The index of the entry to which a demand leads from it: one step nearer to the goal.
    pub next: u32,
}

/// The sorts from which demands lead to the goal, itself first.
pub fn sources(
    alloc: Global,
    demands: &Demands,
    sorts: u32,
    goal: u32,
) -> Result<Vec<Source>, AllocError>
    requires sorts { sorts ≤ most_sorts }
    requires goal { goal < sorts }
    ensures { IfOk result (λ found. AreSources (LeadsIn demands.now) sorts goal found.items) }
{
    let mut seen = vec![in alloc; false; sorts as usize]?;
    let mut found = Vec::new(alloc);
    seen[goal as usize] = true;
    found.push(Source {
        sort: goal,
        next: 0,
    })?;
    let mut at = 0;
    while at < found.len() {
        add_sources(demands, sorts, goal, at as u32, &mut seen, &mut found)?;
        at += 1;
    }
    Ok(found)
}

// Adds the sorts from which a demand leads to that of the entry `at`.
fn add_sources(
    demands: &Demands,
    sorts: u32,
    goal: u32,
    at: u32,
    seen: &mut Vec<bool>,
    found: &mut Vec<Source>,
) -> Result<(), AllocError>
    requires sorts { sorts ≤ most_sorts }
    requires at { at < length found.old.items }
    requires begun { Begun (LeadsIn demands.now) sorts goal found.old.items at }
    requires marks { Marks sorts found.old.items seen.old.items }
    ensures begun { OnOk result (Begun (LeadsIn demands.now) sorts goal found.new.items (at + 1)) }
    ensures marks { OnOk result (Marks sorts found.new.items seen.new.items) }
    ensures longer { OnOk result (length found.old.items ≤ length found.new.items) }
{
    let here = found[at as usize].sort;
    for sort in 0..sorts {
        if !seen[sort as usize] && demands.leads(sort, here) {
            seen[sort as usize] = true;
            found.push(Source { sort, next: at })?;
        }
    }
    Ok(())
}

/// The sorts on the way from the entry to the goal.
pub fn way_from(alloc: Global, found: &[Source], start: usize) -> Result<Numbers, AllocError>
    requires start { start < length found.now }
    requires earlier { (k : _) → 0 < k → k < length found.now → next_at found.now k < k }
    requires apart { (j k : _) → j < k → k < length found.now → sort_at found.now j ≢ sort_at found.now k }
    ensures { IfOk result (IsWay (LeadsBy found.now) (sort_at found.now start) (sort_at found.now 0)) }
{
    let mut way = Numbers::new(alloc);
    let mut at = start;
    way.push(found[at].sort)?;
    while at > 0 {
        at = found[at].next as usize;
        way.push(found[at].sort)?;
    }
    Ok(way)
}

/// The index of an entry to which a strict demand leads from the goal, if there is one.
pub fn strict_return(demands: &Demands, goal: u32, found: &[Source]) -> Option<usize>
    requires goal { goal < most_sorts }
    requires within { (k : _) → k < length found.now → sort_at found.now k < most_sorts }
    ensures { MatchOption result ((k : _) → k < length found.now → LeadsStrictlyIn demands.now goal (sort_at found.now k) → ⊥)
        (λ k. (k < length found.now) × LeadsStrictlyIn demands.now goal (sort_at found.now k)) }
{
    for (k, source) in found.iter().enumerate() {
        if demands.leads_strictly(goal, source.sort) {
            return Some(k);
        }
    }
    None
}
