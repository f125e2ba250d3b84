//! Rows of the checker of lists of clauses with hints, and of the solver that gives such lists.

ghost use Rattle.std.specs.Bool.{OnTrue};
ghost use Rattle.std.specs.Prelude.{◌≤◌, ◌^◌, Contains, length};
ghost use Rattle.wh_sat_trail.specs.declared.entry.Entry.{Entry};

use crate::formulas::{are_within, clause_of, clauses_of};
use crate::solver_rows::REFUSED;
use std::alloc::{AllocError, Global};
use std::test::Fail;
use wh_refute::{RefuteFault, check_refutation};
use wh_sat_listed::{Listed, solve_listed};
use wh_sat_trail::{Entry, Formula, Refutation};
use wh_types::{Numbers, Or};

// Whether no entry has more hints than numbers.
fn are_short(entries: &[Entry]) -> bool
    ensures { OnTrue result ((e : Entry) → Contains entries.now e → length e.hints ≤ 2 ^ 32) }
{
    for entry in entries {
        if entry.hints.as_slice().len() > 1_000_000 {
            return false;
        }
    }
    true
}

// What is first wrong with a list, or how many entries it has.
fn told(alloc: Global, outcome: Result<u32, RefuteFault>) -> Result<String, AllocError> {
    match outcome {
        Ok(entries) => format!(in alloc; "refuted {entries}"),
        Err(RefuteFault::BadLiteral { entry }) => format!(in alloc; "literal {entry}"),
        Err(RefuteFault::BadHint { entry, hint }) => format!(in alloc; "hint {entry} {hint}"),
        Err(RefuteFault::Open { entry }) => format!(in alloc; "open {entry}"),
        Err(RefuteFault::NoEmpty) => format!(in alloc; "no empty"),
    }
}

// What the checker says of a list; want of memory stands for what it may not be asked.
fn checked(alloc: Global, formula: &Formula, list: &Refutation) -> Result<String, AllocError> {
    let clauses = formula.clauses.as_slice();
    let entries = list.as_slice();
    if clauses.len() > 1_000_000 || entries.len() > 1_000_000 {
        return Err(AllocError);
    }
    if !are_within(formula.variables, clauses) || !are_short(entries) {
        return Err(AllocError);
    }
    match check_refutation(alloc, formula, list) {
        Ok(refuted) => told(alloc, Ok(refuted.entries)),
        Err(Or::NoMemory) => Err(AllocError),
        Err(Or::Because(fault)) => told(alloc, Err(fault)),
    }
}

/// A clause and its hints.
type Given = (&'static [i32], &'static [u32]);

// The list of clauses with hints.
fn list_of(alloc: Global, entries: &[Given]) -> Result<Refutation, AllocError> {
    let mut list = Refutation::new(alloc);
    for (clause, numbers) in entries {
        let mut hints = Numbers::new(alloc);
        for number in *numbers {
            hints.push(*number)?;
        }
        list.push(Entry {
            clause: clause_of(alloc, *clause)?,
            hints,
        })?;
    }
    Ok(list)
}

/// A variable and its negation.
const BOTH: &[&[i32]] = &[&[1], &[-1]];

/// Formulas and lists, and what the checker says.
const LISTS: &[(u32, &[&[i32]], &[Given], &str)] = &[
    (1, BOTH, &[(&[], &[0, 1])], "refuted 1"),
    (1, BOTH, &[(&[], &[0])], "open 0"),
    (1, BOTH, &[(&[], &[0, 2])], "hint 0 1"),
    (1, BOTH, &[(&[], &[0, 0, 1])], "hint 0 1"),
    (1, BOTH, &[(&[], &[0, 1, 0])], "hint 0 1"),
    (1, BOTH, &[(&[2], &[0, 1])], "literal 0"),
    (1, BOTH, &[(&[1], &[0])], "no empty"),
    (1, BOTH, &[], "no empty"),
    (
        2,
        REFUSED,
        &[(&[1], &[0, 1]), (&[], &[4, 2, 3])],
        "refuted 2",
    ),
    (2, REFUSED, &[(&[], &[0, 1, 2, 3])], "hint 0 0"),
];

/// A list that refutes the four clauses over two variables, with one change at each place: a hint missing, twice, of
/// another place or clause, or of none; a literal more, less, or of the other sign; an entry missing, elsewhere, or
/// more.
const CHANGED: &[(&[Given], &str)] = &[
    (&[(&[1], &[0, 1]), (&[], &[4, 2, 3])], "refuted 2"),
    // hints of the first entry
    (&[(&[1], &[1]), (&[], &[4, 2, 3])], "open 0"),
    (&[(&[1], &[0]), (&[], &[4, 2, 3])], "open 0"),
    (&[(&[1], &[]), (&[], &[4, 2, 3])], "open 0"),
    (&[(&[1], &[0, 0, 1]), (&[], &[4, 2, 3])], "hint 0 1"),
    (&[(&[1], &[0, 1, 1]), (&[], &[4, 2, 3])], "hint 0 1"),
    (&[(&[1], &[1, 0]), (&[], &[4, 2, 3])], "refuted 2"),
    (&[(&[1], &[2, 1]), (&[], &[4, 2, 3])], "hint 0 0"),
    (&[(&[1], &[0, 2]), (&[], &[4, 2, 3])], "hint 0 1"),
    (&[(&[1], &[0, 3]), (&[], &[4, 2, 3])], "hint 0 1"),
    (&[(&[1], &[4, 1]), (&[], &[4, 2, 3])], "hint 0 0"),
    (&[(&[1], &[0, 4]), (&[], &[4, 2, 3])], "hint 0 1"),
    // hints of the second
    (&[(&[1], &[0, 1]), (&[], &[2, 3])], "hint 1 0"),
    (&[(&[1], &[0, 1]), (&[], &[4, 3])], "open 1"),
    (&[(&[1], &[0, 1]), (&[], &[4, 2])], "open 1"),
    (&[(&[1], &[0, 1]), (&[], &[])], "open 1"),
    (&[(&[1], &[0, 1]), (&[], &[4, 4, 2, 3])], "hint 1 1"),
    (&[(&[1], &[0, 1]), (&[], &[4, 2, 2, 3])], "hint 1 2"),
    (&[(&[1], &[0, 1]), (&[], &[4, 2, 3, 3])], "hint 1 2"),
    (&[(&[1], &[0, 1]), (&[], &[2, 4, 3])], "hint 1 0"),
    (&[(&[1], &[0, 1]), (&[], &[4, 3, 2])], "refuted 2"),
    (&[(&[1], &[0, 1]), (&[], &[3, 4, 2])], "hint 1 0"),
    (&[(&[1], &[0, 1]), (&[], &[5, 2, 3])], "hint 1 0"),
    (&[(&[1], &[0, 1]), (&[], &[4, 5, 3])], "hint 1 1"),
    (&[(&[1], &[0, 1]), (&[], &[4, 2, 5])], "hint 1 2"),
    // literals of the first entry
    (&[(&[], &[0, 1]), (&[], &[4, 2, 3])], "hint 0 0"),
    (&[(&[1, 2], &[0, 1]), (&[], &[4, 2, 3])], "hint 0 0"),
    (&[(&[1, -2], &[0, 1]), (&[], &[4, 2, 3])], "hint 0 0"),
    (&[(&[1, 3], &[0, 1]), (&[], &[4, 2, 3])], "literal 0"),
    (&[(&[-1], &[0, 1]), (&[], &[4, 2, 3])], "hint 0 0"),
    (&[(&[2], &[0, 1]), (&[], &[4, 2, 3])], "hint 0 1"),
    // literals of the second
    (&[(&[1], &[0, 1]), (&[1], &[4, 2, 3])], "hint 1 0"),
    (&[(&[1], &[0, 1]), (&[-1], &[4, 2, 3])], "hint 1 0"),
    (&[(&[1], &[0, 1]), (&[2], &[4, 2, 3])], "hint 1 1"),
    (&[(&[1], &[0, 1]), (&[-2], &[4, 2, 3])], "hint 1 1"),
    (&[(&[1], &[0, 1]), (&[3], &[4, 2, 3])], "literal 1"),
    // entries
    (&[(&[1], &[0, 1])], "no empty"),
    (&[(&[], &[4, 2, 3])], "hint 0 0"),
    (&[(&[], &[4, 2, 3]), (&[1], &[0, 1])], "hint 0 0"),
    (
        &[(&[1], &[0, 1]), (&[], &[4, 2, 3]), (&[1], &[5])],
        "no empty",
    ),
    (&[(&[1], &[0, 1]), (&[2], &[4, 2])], "no empty"),
];

#[test]
fn checks_changed_lists(rt: HostRuntime) -> Result<(), Fail> {
    let alloc = rt.alloc();
    let formula = Formula {
        variables: 2,
        clauses: clauses_of(alloc, REFUSED)?,
    };
    for (entries, expected) in CHANGED {
        let list = list_of(alloc, *entries)?;
        let text = checked(alloc, &formula, &list)?;
        assert_eq!(rt; text.as_str(), *expected);
    }
    Ok(())
}

#[test]
fn checks_lists(rt: HostRuntime) -> Result<(), Fail> {
    let alloc = rt.alloc();
    for (variables, lists, entries, expected) in LISTS {
        let formula = Formula {
            variables: *variables,
            clauses: clauses_of(alloc, *lists)?,
        };
        let list = list_of(alloc, *entries)?;
        let text = checked(alloc, &formula, &list)?;
        assert_eq!(rt; text.as_str(), *expected);
    }
    Ok(())
}

/// A formula of three pigeons and two holes: each is in one, and no two are in the same.
const PIGEONS: &[&[i32]] = &[
    &[1, 2],
    &[3, 4],
    &[5, 6],
    &[-1, -3],
    &[-1, -5],
    &[-3, -5],
    &[-2, -4],
    &[-2, -6],
    &[-4, -6],
];

/// Formulas and budgets, and what the solver that gives lists comes to; of a list what the checker says.
const SOLVED: &[(u32, &[&[i32]], u64, &str)] = &[
    (1, &[&[1]], 1, "sat"),
    (1, &[&[1]], 0, "spent"),
    (0, &[&[]], 1, "refuted 1"),
    (1, BOTH, 1, "refuted 1"),
    (2, REFUSED, 10, "refuted 2"),
    (6, PIGEONS, 1, "spent"),
];

// The answer for a formula; want of memory stands for what may not be asked.
fn solved(alloc: Global, formula: &Formula, budget: u64) -> Result<String, AllocError> {
    let clauses = formula.clauses.as_slice();
    if clauses.len() > 1_000_000 || budget > 1_000_000 {
        return Err(AllocError);
    }
    if !are_within(formula.variables, clauses) {
        return Err(AllocError);
    }
    match solve_listed(alloc, formula, budget)? {
        Listed::Sat(_) => format!(in alloc; "sat"),
        Listed::Unsat(list) => checked(alloc, formula, &list),
        Listed::Spent(_) => format!(in alloc; "spent"),
    }
}

#[test]
fn lists_of_the_solver_are_accepted(rt: HostRuntime) -> Result<(), Fail> {
    let alloc = rt.alloc();
    for (variables, lists, budget, expected) in SOLVED {
        let formula = Formula {
            variables: *variables,
            clauses: clauses_of(alloc, *lists)?,
        };
        let text = solved(alloc, &formula, *budget)?;
        assert_eq!(rt; text.as_str(), *expected);
    }
    Ok(())
}
