//! The checker of lists of clauses with hints. `check_refutation` is the main function.

ghost use Rattle.std.specs.Prelude.{◌≡◌, ◌+◌, ◌<◌, ◌≤◌, ◌^◌, ◌↔◌, [], ℕ, Contains, IfOk, IsTrue, List, MatchOption, MatchResult, Some, None, get_or, length, map, slice_get, take};
ghost use Rattle.wh_types.specs.Outcome.{IfBecause};
ghost use Rattle.wh_sat_trail.specs.Assignment.{AllBelow, negated};
ghost use Rattle.wh_sat_trail.specs.Propagation.{Within};
ghost use Rattle.wh_sat_trail.specs.declared.entry.Entry.{Entry};
ghost use Rattle.wh_sat_trail.specs.declared.literal.Literal.{Literal};
ghost use Rattle.wh_refute.specs.declared.fault.EntryFault.TheVariants as fault;
ghost use Rattle.wh_refute.specs.RefuteFaults.{HasForeign, IsFirstRefuteFault, Strays};
ghost use Rattle.wh_refute.specs.Refuting.{AreGoodBefore, EndsEmpty, IsGoodEntry, IsRefutation, Leads};
ghost use Rattle.wh_refute.specs.Told.{IsEntryFault, IsHintFault, Tells, fault_of, with_entries};

use crate::fault::{EntryFault, RefuteFault, Refuted};
use crate::look::{Look, look_at, negation};
use crate::truth::Truth;
use std::alloc::Global;
use wh_sat_trail::{Clause, Entry, Formula, Literal, Refutation};
use wh_types::Or;

/// Whether the list shows that the formula has no model: each entry's hints lead, from the negations of its literals
/// taken for true, to a clause that is false, and the last entry is the empty clause (Cruz-Filipe, Heule, Hunt,
/// Kaufmann and Schneider-Kamp 2017). It takes time linear in the clauses that the hints name.
///
/// `Because` names the first fault, in the order of [`RefuteFault`].
pub fn check_refutation(
    alloc: Global,
    formula: &Formula,
    list: &Refutation,
) -> Result<Refuted, Or<RefuteFault>>
    requires within { Within formula.now.variables formula.now.clauses }
    requires few { length formula.now.clauses + length list.now < 2 ^ 31 }
    requires hints { (e : Entry) → Contains list.now e → length e.hints ≤ 2 ^ 32 }
    ensures good { IfOk result (λ found. IsRefutation formula.now.variables formula.now.clauses list.now
        × (found.entries ≡ length list.now)) }
    ensures fault { IfBecause result (IsFirstRefuteFault formula.now.variables formula.now.clauses list.now) }
{
    let entries = list.as_slice();
    let mut truth = Truth::new(alloc, formula.variables)?;
    if let Err(fault) = check_entries(&mut truth, formula, entries) {
        return Err(Or::Because(fault));
    }
    if !ends_empty(entries) {
        return Err(Or::Because(RefuteFault::NoEmpty));
    }
    Ok(Refuted {
        entries: entries.len() as u32,
    })
}

// Whether all entries are good, where nothing is true before.
fn check_entries(truth: &mut Truth, formula: &Formula, entries: &[Entry]) -> Result<(), RefuteFault>
    requires tells { Tells formula.now.variables truth.old [] × (truth.old.round ≡ 1) }
    requires within { Within formula.now.variables formula.now.clauses }
    requires few { length formula.now.clauses + length entries.now < 2 ^ 31 }
    requires hints { (e : Entry) → Contains entries.now e → length e.hints ≤ 2 ^ 32 }
    ensures { MatchResult result (λ _. AreGoodBefore formula.now.variables formula.now.clauses entries.now (length entries.now))
        (IsFirstRefuteFault formula.now.variables formula.now.clauses entries.now) }
{
    for (number, entry) in entries.iter().enumerate() {
        let before = Before {
            given: formula.clauses.as_slice(),
            entries: &entries[..number],
        };
        if let Err(fault) = follow_entry(truth, formula.variables, before, entry) {
            return Err(fault_at(number as u32, fault));
        }
        truth.clear();
    }
    Ok(())
}

// The fault of the entry with that number.
fn fault_at(entry: u32, fault: EntryFault) -> RefuteFault
    ensures { result ≡ fault_of entry fault }
{
    match fault {
        EntryFault::Literal => RefuteFault::BadLiteral { entry },
        EntryFault::Hint(hint) => RefuteFault::BadHint { entry, hint },
        EntryFault::Open => RefuteFault::Open { entry },
    }
}

// Whether the last entry is the empty clause.
fn ends_empty(entries: &[Entry]) -> bool
    ensures { IsTrue result ↔ EndsEmpty entries.now }
{
    match entries.last() {
        Some(entry) => entry.clause.as_slice().is_empty(),
        None => false,
    }
}

/// The clauses before an entry: those of the formula, and those of earlier entries.
#[derive(Clone, Copy)]
struct Before<'a> {
    given: &'a [Clause],
    entries: &'a [Entry],
}

impl<'a> Before<'a> {
    // The clause with that number, if there is one.
    fn clause(&self, number: u32) -> Option<&'a [Literal]>
        ensures { MatchOption result (length (with_entries self.now.given.now self.now.entries.now) ≤ number)
            (λ c. (number < length (with_entries self.now.given.now self.now.entries.now))
            × (c.now ≡ get_or (with_entries self.now.given.now self.now.entries.now) number [])) }
    {
        let place = number as usize;
        match self.given.get(place) {
            Some(clause) => Some(clause.as_slice()),
            None => {
                let entry = self.entries.get(place - self.given.len())?;
                Some(entry.clause.as_slice())
            }
        }
    }
}

// Whether the entry is good behind these clauses, where nothing is true before.
fn follow_entry<'a>(
    truth: &mut Truth,
    variables: u32,
    before: Before<'a>,
    entry: &Entry,
) -> Result<(), EntryFault>
    requires tells { Tells variables truth.old [] }
    requires within { Within variables (with_entries before.given.now before.entries.now) }
    requires hints { length entry.now.hints ≤ 2 ^ 32 }
    ensures found { MatchResult result (λ _. IsGoodEntry variables (with_entries before.entry.given.now before.entry.entries.now) entry.now)
        (IsEntryFault variables (with_entries before.entry.given.now before.entry.entries.now) entry.now) }
    ensures tells { (t : List Literal) × Tells variables truth.new t }
    ensures round { truth.new.round ≡ truth.old.round }
{
    suppose(truth, variables, entry.clause.as_slice())?;
    follow(truth, variables, before, entry.hints.as_slice())
}

// The negations of the literals become true.
fn suppose(truth: &mut Truth, variables: u32, clause: &[Literal]) -> Result<(), EntryFault>
    requires tells { Tells variables truth.old [] }
    ensures found { MatchResult result (λ _. AllBelow variables clause.now × Tells variables truth.new (map negated clause.now))
        (λ f. (f ≡ fault.Literal) × HasForeign variables clause.now) }
    ensures tells { (t : List Literal) × Tells variables truth.new t }
    ensures round { truth.new.round ≡ truth.old.round }
{
    for literal in clause {
        if literal.variable >= variables {
            return Err(EntryFault::Literal);
        }
        truth.assume(negation(*literal));
    }
    Ok(())
}

// Whether the hints lead to a clause that is false.
fn follow<'a>(
    truth: &mut Truth,
    variables: u32,
    before: Before<'a>,
    hints: &[u32],
) -> Result<(), EntryFault>
    requires tells { (t : List Literal) × Tells variables truth.old t }
    requires within { Within variables (with_entries before.given.now before.entries.now) }
    requires hints { length hints.now ≤ 2 ^ 32 }
    ensures found { (t : List Literal) → Tells variables truth.old t → MatchResult result
        (λ _. Leads (with_entries before.entry.given.now before.entry.entries.now) t hints.now)
        (IsHintFault (with_entries before.entry.given.now before.entry.entries.now) t hints.now) }
    ensures tells { (t : List Literal) × Tells variables truth.new t }
    ensures round { truth.new.round ≡ truth.old.round }
{
    for (place, hint) in hints.iter().enumerate() {
        let Some(clause) = before.clause(*hint) else {
            return Err(EntryFault::Hint(place as u32));
        };
        match look_at(truth, clause, variables) {
            Look::Leaves(literal) => truth.assume(literal),
            Look::False if place + 1 == hints.len() => return Ok(()),
            Look::False => return Err(EntryFault::Hint(place as u32)),
            Look::Stuck => return Err(EntryFault::Hint(place as u32)),
        }
    }
    Err(EntryFault::Open)
}
