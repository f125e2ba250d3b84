//! Lists that show that a formula has no model, in the LRAT format: in each line the number of a clause, its literals,
//! and the numbers of its hints, each closed by 0. Numbers count from 1, those of the formula's clauses first.

ghost use Rattle.std.specs.Bool.{OnTrue};
ghost use Rattle.std.specs.Prelude.{◌≤◌, ◌^◌, Contains, length};
ghost use Rattle.wh_sat_trail.specs.declared.entry.Entry.{Entry};

use crate::dimacs::literal_of;
use std::alloc::{AllocError, Global};
use wh_sat_trail::{Clause, Entry, Refutation};
use wh_types::Numbers;

/// The text of a list for a formula with `given` clauses.
pub fn lrat(alloc: Global, given: usize, entries: &[Entry]) -> Result<String, AllocError> {
    let mut text = String::new(alloc);
    for (number, entry) in entries.iter().enumerate() {
        if number > 0 {
            text.push('\n')?;
        }
        let name = given.saturating_add(number).saturating_add(1);
        write!(text, "{name}")?;
        add_literals(&mut text, entry)?;
        add_hints(&mut text, entry)?;
    }
    Ok(text)
}

// The literals of an entry, closed by 0.
fn add_literals(text: &mut String, entry: &Entry) -> Result<(), AllocError> {
    for literal in entry.clause.as_slice() {
        let sign = if literal.positive { "" } else { "-" };
        let name = literal.variable.saturating_add(1);
        write!(text, " {sign}{name}")?;
    }
    text.push_str(" 0")
}

// The hints of an entry, closed by 0.
fn add_hints(text: &mut String, entry: &Entry) -> Result<(), AllocError> {
    for hint in entry.hints.as_slice() {
        let name = hint.saturating_add(1);
        write!(text, " {name}")?;
    }
    text.push_str(" 0")
}

/// The list of a text; its lines are taken in their order, whatever their own numbers are.
pub fn read_list(alloc: Global, text: &str) -> Result<Refutation, AllocError> {
    let mut list = Refutation::new(alloc);
    for line in text.lines() {
        list.push(read_entry(alloc, line)?)?;
    }
    Ok(list)
}

// The entry of a line.
fn read_entry(alloc: Global, line: &str) -> Result<Entry, AllocError> {
    let mut clause = Clause::new(alloc);
    let mut hints = Numbers::new(alloc);
    let mut closed = false;
    for word in line.split_whitespace().skip(1) {
        let number: i32 = word.parse().or(Err(AllocError))?;
        if number == 0 {
            closed = true;
        } else if closed {
            hints.push(number.unsigned_abs().saturating_sub(1))?;
        } else {
            clause.push(literal_of(number))?;
        }
    }
    Ok(Entry { clause, hints })
}

/// Whether no entry has more hints than a checker takes.
#[tactic(auto, using(crate::proofs::Shown::short_more, crate::proofs::Shown::short_all))]
pub fn are_short(entries: &[Entry]) -> bool
    ensures { OnTrue result ((e : Entry) → Contains entries.now e → length e.hints ≤ 2 ^ 32) }
{
    for entry in entries {
        if entry.hints.as_slice().len() > 1_000_000 {
            return false;
        }
    }
    true
}
