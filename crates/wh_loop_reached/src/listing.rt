//! The list of the terms that a search for loops reached, with the way to each.

ghost use Rattle.std.specs.Prelude.{◌≡◌, ◌<◌, ◌^◌, ◌+◌, ◌++◌, ◌∷◌, ◌↔◌, ℕ, [], Contains, List, IfOk, OnOk, IsTrue, Some, length, map};
ghost use Rattle.wh_terms.specs.Erase.{tm};
ghost use Rattle.wh_terms.specs.Rules.{RewriteRule};
ghost use Rattle.wh_loop_steps.specs.Tables.{HasNumber, KeepsNumbers};
ghost use Rattle.wh_loop_reached.specs.Marks.{key_of};
ghost use Rattle.wh_loop_reached.specs.Listing.{AreAllLinked, AreMarked, IsLinked, IsListed, LeadTo, ListsAt, tree};

use crate::marks::{KEYS, key_of};
use crate::visit::{Visit, Visits};
use std::alloc::{AllocError, Global};
use wh_cert::Steps;
use wh_loop_steps::{Table, path_of};
use wh_terms::{Step, Term, same};

/// Where an entry comes from.
#[derive(Drop)]
pub struct Origin {
    /// The number of the entry before it.
    pub parent: usize,
    /// The step from there.
    pub step: Step,
}

/// A term that was reached.
#[derive(Drop)]
pub struct Entry {
    /// The term, and the rule from whose start it was reached.
    pub visit: Visit,
    /// The term is reached from its start in at most this number of steps.
    pub level: u32,
    /// The step to it; `None` for a start.
    pub origin: Option<Origin>,
}

/// The terms that were reached, with the number of each in the row of its mark.
#[derive(Drop)]
pub struct Listing {
    /// The terms.
    pub entries: Vec<Entry>,
    /// The numbers.
    pub marks: Table,
}

/// The empty list.
pub fn new_listing(alloc: Global) -> Result<Listing, AllocError>
    ensures entries { IfOk result (λ l. l.entries.items ≡ []) }
    ensures keys { IfOk result (λ l. length l.marks ≡ 16384) }
{
    Ok(Listing {
        entries: Vec::new(alloc),
        marks: Table::new(alloc, KEYS)?,
    })
}

// Whether the entry with the number lists the term with that start.
fn lists_at(entries: &[Entry], number: u32, start: u32, term: &Term) -> bool
    ensures { IsTrue result ↔ ListsAt entries.now number (record { start = start; term = tm term.now }) }
{
    match entries.get(number as usize) {
        Some(entry) => entry.visit.start == start && same(&entry.visit.term, term),
        None => false,
    }
}

// Whether one of the entries with these numbers lists the term with that start.
fn lists_among(entries: &[Entry], numbers: &[u32], start: u32, term: &Term) -> bool
    ensures some { IsTrue result → IsListed entries.now start (tm term.now) }
    ensures none { (k : ℕ) → Contains numbers.now k → ListsAt entries.now k (record { start = start; term = tm term.now }) → IsTrue result }
{
    for number in numbers {
        if lists_at(entries, *number, start, term) {
            return true;
        }
    }
    false
}

/// Whether the term is listed with that start.
pub fn is_listed(listing: &Listing, start: u32, term: &Term) -> bool
    requires keys { length listing.now.marks ≡ 16384 }
    requires marked { AreMarked listing.now.marks listing.now.entries.items }
    ensures { IsTrue result ↔ IsListed listing.now.entries.items start (tm term.now) }
{
    lists_among(
        &listing.entries,
        listing.marks.row(key_of(term)),
        start,
        term,
    )
}

/// The entry joins at the end.
pub fn add(listing: &mut Listing, entry: Entry) -> Result<(), AllocError>
    requires few { length listing.old.entries.items < 2 ^ 32 }
    requires keys { length listing.old.marks ≡ 16384 }
    ensures entries { OnOk result (listing.new.entries.items ≡ listing.old.entries.items ++ entry ∷ []) }
    ensures keys { OnOk result (length listing.new.marks ≡ 16384) }
    ensures kept { OnOk result (KeepsNumbers listing.old.marks listing.new.marks) }
    ensures added { OnOk result (HasNumber listing.new.marks (key_of (tree entry)) (length listing.old.entries.items)) }
{
    let number = listing.entries.len() as u32;
    listing.marks.add(key_of(&entry.visit.term), number)?;
    listing.entries.push(entry)?;
    Ok(())
}

/// The steps that lead to the entry from its start.
pub fn steps_to(alloc: Global, entries: &[Entry], entry: &Entry) -> Result<Steps, AllocError>
    requires { (rules : List RewriteRule) × AreAllLinked rules entries.now × IsLinked rules entries.now entry.now }
    ensures { IfOk result (λ steps. (rules : List RewriteRule) → AreAllLinked rules entries.now → IsLinked rules entries.now entry.now
        → LeadTo rules entry.now steps) }
{
    match &entry.origin {
        None => Ok(Steps::new(alloc)),
        Some(origin) => {
            let mut steps = steps_to(alloc, entries, &entries[origin.parent])?;
            steps.push(copy_step(alloc, &origin.step)?)?;
            Ok(steps)
        }
    }
}

// An equal step.
fn copy_step(alloc: Global, step: &Step) -> Result<Step, AllocError>
    ensures { IfOk result (λ r. r ≡ step.now) }
{
    let path = path_of(alloc, step.path.as_slice())?;
    Ok(Step {
        rule: step.rule,
        path,
    })
}

/// The entries as what they list.
pub fn visits_of(alloc: Global, entries: Vec<Entry>) -> Result<Visits, AllocError>
    ensures { IfOk result (λ visits. visits ≡ map (λ e. e.visit) entries.items) }
{
    let mut visits = Visits::new(alloc);
    for entry in entries {
        visits.push(entry.visit)?;
    }
    Ok(visits)
}
