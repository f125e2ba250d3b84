//! The search for loops, level by level. `find_loop` is the main function.

ghost use Rattle.std.specs.Prelude.{◌≡◌, ◌<◌, ◌≤◌, ◌^◌, ◌+◌, ℕ, [], IfOk, OnOk, length};
ghost use Rattle.wh_terms.specs.Erase.{tm};
ghost use Rattle.wh_terms.specs.Measures.{Fits};
ghost use Rattle.wh_terms.specs.Typing.{WellTyped};
ghost use Rattle.wh_system.specs.Systems.{SystemData};
ghost use Rattle.wh_system.specs.SystemView.{system_data};
ghost use Rattle.wh_cert.specs.Said.{said_no};
ghost use Rattle.wh_loop_starts.specs.Starts.{IsStart};
ghost use Rattle.wh_loop_starts.specs.Found.{IsLoopCertificate};
ghost use Rattle.wh_find_loop.specs.Answers.{IsAnswer};
ghost use Rattle.wh_loop_reached.specs.Listing.{AreAllLinked, AreMarked, IsLinked, IsListing};
ghost use Rattle.wh_find_loop.specs.Searching.{AreBelow, AreDone, AreStarts, Comes, EndsAt, GoesOn, GoesThrough, IsPlan, ListsStarts, TakesStart, Tries};

use crate::answer::LoopSearch;
use crate::joining::list_if_new;
use crate::starts::{Plan, plan_of};
use std::alloc::{AllocError, Global};
use wh_cert::NoCertificate;
use wh_loop_reached::{Entry, Listing, Origin, Visit, new_listing, steps_to, visits_of};
use wh_loop_starts::{Instance, certificate_of, find_instance};
use wh_loop_steps::{copy_in_space, reduct_by, steps_of};
use wh_system::System;
use wh_terms::{Step, Term};

/// How far the search came.
#[derive(Drop)]
pub enum Progress {
    /// All steps that were to be tried are tried.
    More,
    /// As many terms are listed as may be kept.
    Full,
    /// There is a loop.
    Found(Box<NoCertificate>),
}

/// The setting of a search: a system with its plan.
#[derive(Clone, Copy)]
pub struct Setting<'a> {
    /// The system.
    pub system: &'a System,
    /// Where the search starts, and the rules of each symbol.
    pub plan: &'a Plan,
}

/// How a loop ends.
#[derive(Drop)]
pub struct Ending {
    /// The last step.
    pub step: Step,
    /// Where the instance stands in the term that it leads to.
    pub instance: Instance,
}

// The certificate of the loop that goes to the entry and ends so.
fn certify(
    alloc: Global,
    system: &System,
    start: &Term,
    entries: &[Entry],
    entry: &Entry,
    ending: Ending,
) -> Result<Box<NoCertificate>, AllocError>
    requires linked { AreAllLinked (system_data system.now).rules entries.now }
    requires entry { IsLinked (system_data system.now).rules entries.now entry.now }
    requires start { IsStart (system_data system.now).rules entry.now.visit.start (tm start.now) }
    requires fits { Fits (tm start.now) }
    requires leads { EndsAt (system_data system.now) entry.now ending.step (tm start.now) ending.instance }
    ensures { (level : ℕ) → entry.now.level < level → level < 2 ^ 32
        → IfOk result (λ c. IsLoopCertificate (system_data system.now) level (said_no c.value)) }
{
    let mut steps = steps_to(alloc, entries, entry)?;
    steps.push(ending.step)?;
    let found = certificate_of(alloc, system, start, steps, ending.instance)?;
    Ok(Box::new(alloc, found)?)
}

// Takes the step from the entry with the number, and tests and lists what it leads to. A term is tested also where it
// is listed.
fn try_step(
    alloc: Global,
    setting: &Setting<'_>,
    listing: &mut Listing,
    at: usize,
    step: Step,
    level: u32,
) -> Result<Option<Box<NoCertificate>>, AllocError>
    requires plan { IsPlan (system_data setting.now.system.now) setting.now.plan.now }
    requires listing { IsListing (system_data setting.now.system.now) level listing.old }
    requires at { at < length listing.old.entries.items }
    requires below { AreBelow level (at + 1) listing.old.entries.items }
    requires few { length listing.old.entries.items < 2 ^ 32 }
    requires deep { level < 2 ^ 32 }
    ensures { IfOk result (λ found. Tries (system_data setting.now.system.now) level at step listing.old found listing.new) }
{
    setting.system.is_well_made();
    let entry = &listing.entries[at];
    let Some(reduct) = reduct_by(alloc, setting.system.rules(), &entry.visit.term, &step)? else {
        return Ok(None);
    };
    let start = &setting.plan.starts[entry.visit.start as usize];
    if let Some(instance) = find_instance(alloc, setting.system, start, &reduct)? {
        let ending = Ending { step, instance };
        let found = certify(
            alloc,
            setting.system,
            start,
            &listing.entries,
            entry,
            ending,
        )?;
        return Ok(Some(found));
    }
    let next = Entry {
        visit: Visit {
            start: entry.visit.start,
            term: reduct,
        },
        level,
        origin: Some(Origin { parent: at, step }),
    };
    list_if_new(listing, next)?;
    Ok(None)
}

// Tries all steps from the entry with the number.
fn search_entry(
    alloc: Global,
    setting: &Setting<'_>,
    listing: &mut Listing,
    at: usize,
    level: u32,
    visited: u32,
) -> Result<Progress, AllocError>
    requires plan { IsPlan (system_data setting.now.system.now) setting.now.plan.now }
    requires listing { IsListing (system_data setting.now.system.now) level listing.old }
    requires at { at < length listing.old.entries.items }
    requires below { AreBelow level (at + 1) listing.old.entries.items }
    requires done { AreDone (system_data setting.now.system.now) listing.old.entries.items at }
    requires fewer { length listing.old.entries.items < visited }
    requires deep { level < 2 ^ 32 }
    ensures { IfOk result (Comes (system_data setting.now.system.now) level visited
        (GoesOn (system_data setting.now.system.now) level visited (at + 1) listing.old.entries.items listing.new)
        listing.new) }
{
    setting.system.is_well_made();
    let term = &listing.entries[at].visit.term;
    let steps = steps_of(alloc, setting.system.rules(), &setting.plan.table, term)?;
    for step in steps {
        if let Some(found) = try_step(alloc, setting, listing, at, step, level)? {
            return Ok(Progress::Found(found));
        }
        if listing.entries.len() >= visited as usize {
            return Ok(Progress::Full);
        }
    }
    Ok(Progress::More)
}

// Tries all steps from the entries from the number on; what they lead to has the level.
fn search_level(
    alloc: Global,
    setting: &Setting<'_>,
    listing: &mut Listing,
    from: usize,
    level: u32,
    visited: u32,
) -> Result<Progress, AllocError>
    requires plan { IsPlan (system_data setting.now.system.now) setting.now.plan.now }
    requires listing { IsListing (system_data setting.now.system.now) level listing.old }
    requires from { from ≤ length listing.old.entries.items }
    requires below { AreBelow level (length listing.old.entries.items) listing.old.entries.items }
    requires done { AreDone (system_data setting.now.system.now) listing.old.entries.items from }
    requires fewer { length listing.old.entries.items < visited }
    requires deep { level < 2 ^ 32 }
    ensures { IfOk result (Comes (system_data setting.now.system.now) level visited
        (GoesOn (system_data setting.now.system.now) level visited (length listing.old.entries.items)
        listing.old.entries.items listing.new)
        listing.new) }
{
    let end = listing.entries.len();
    for at in from..end {
        match search_entry(alloc, setting, listing, at, level, visited)? {
            Progress::More => {}
            Progress::Full => return Ok(Progress::Full),
            Progress::Found(found) => return Ok(Progress::Found(found)),
        }
    }
    Ok(Progress::More)
}

// Lists the start of the rule with the number, if it is in the space.
fn list_start(
    alloc: Global,
    start: &Term,
    number: u32,
    listing: &mut Listing,
) -> Result<(), AllocError>
    requires few { length listing.old.entries.items < 2 ^ 32 }
    requires keys { length listing.old.marks ≡ 16384 }
    requires marked { AreMarked listing.old.marks listing.old.entries.items }
    ensures { OnOk result ((d : SystemData) → IsListing d 0 listing.old → IsStart d.rules number (tm start.now)
        → WellTyped d.symbols (tm start.now) → TakesStart d number (tm start.now) listing.old.entries.items listing.new) }
{
    let Some(term) = copy_in_space(alloc, start)? else {
        return Ok(());
    };
    let entry = Entry {
        visit: Visit {
            start: number,
            term,
        },
        level: 0,
        origin: None,
    };
    list_if_new(listing, entry)
}

// Lists the starts of the rules, and says whether the list is full.
fn list_starts(
    alloc: Global,
    system: &System,
    starts: &[Term],
    listing: &mut Listing,
    visited: u32,
) -> Result<bool, AllocError>
    requires starts { AreStarts (system_data system.now) starts.now }
    requires keys { length listing.old.marks ≡ 16384 }
    requires none { listing.old.entries.items ≡ [] }
    requires some { 0 < visited }
    ensures { IfOk result (λ full. ListsStarts (system_data system.now) visited full listing.new) }
{
    system.is_well_made();
    for (number, start) in starts.iter().enumerate() {
        list_start(alloc, start, number as u32, listing)?;
        if listing.entries.len() >= visited as usize {
            return Ok(true);
        }
    }
    Ok(false)
}

// Tries all steps of at most `depth` levels.
fn search(
    alloc: Global,
    setting: &Setting<'_>,
    listing: &mut Listing,
    depth: u32,
    visited: u32,
) -> Result<Progress, AllocError>
    requires plan { IsPlan (system_data setting.now.system.now) setting.now.plan.now }
    requires keys { length listing.old.marks ≡ 16384 }
    requires none { listing.old.entries.items ≡ [] }
    requires deep { depth < 2 ^ 32 }
    ensures { IfOk result (Comes (system_data setting.now.system.now) depth visited
        (GoesThrough (system_data setting.now.system.now) depth visited listing.new) listing.new) }
{
    if visited == 0 {
        return Ok(Progress::Full);
    }
    if list_starts(
        alloc,
        setting.system,
        &setting.plan.starts,
        listing,
        visited,
    )? {
        return Ok(Progress::Full);
    }
    let mut from = 0;
    for level in 0..depth {
        let end = listing.entries.len();
        match search_level(alloc, setting, listing, from, level + 1, visited)? {
            Progress::More => from = end,
            Progress::Full => return Ok(Progress::Full),
            Progress::Found(found) => return Ok(Progress::Found(found)),
        }
    }
    Ok(Progress::More)
}

/// Looks for a loop: from the left side of each rule, read with free variables in place of its meta-variables, over all
/// paths of at most `depth` steps through terms that fit and have at most 2,048 nodes. A loop is a path of at least one
/// step to a term that holds an instance of its start (Kop 2012). At most `visited` terms are kept.
///
/// `Found` is a valid certificate. `Nothing` comes only where there is no loop in this space, and fewer than `visited`
/// terms are reached. `Full` shows `visited` terms that are reached; each is a start itself, or holds no instance of
/// its start.
pub fn find_loop(
    alloc: Global,
    system: &System,
    depth: u32,
    visited: u32,
) -> Result<LoopSearch, AllocError>
    ensures { IfOk result (IsAnswer (system_data system.now) depth visited) }
{
    let plan = plan_of(alloc, system)?;
    let mut listing = new_listing(alloc)?;
    let setting = Setting {
        system,
        plan: &plan,
    };
    match search(alloc, &setting, &mut listing, depth, visited)? {
        Progress::More => Ok(LoopSearch::Nothing),
        Progress::Full => Ok(LoopSearch::Full(visits_of(alloc, listing.entries)?)),
        Progress::Found(found) => Ok(LoopSearch::Found(Box::into_inner(found))),
    }
}
