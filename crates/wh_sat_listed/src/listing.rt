//! Lists of clauses with hints, made of the clauses that the solver of wh_sat learnt. That solver keeps no hints: of
//! what it learnt it is known that propagation refutes each clause from those before it. So hints are sought once its
//! search has ended, and a search for whose list nobody asks costs nothing more.

ghost use Rattle.std.specs.Prelude.{◌≡◌, ℕ, ◌+◌, ◌<◌, ◌≤◌, ◌^◌, [], Contains, IfOk, OnOk, get_or, length, map, take};
ghost use Rattle.wh_sat_trail.specs.Assignment.{AllBelow, negated};
ghost use Rattle.wh_sat_trail.specs.Propagation.{Within};
ghost use Rattle.wh_sat_trail.specs.declared.entry.Entry.{Entry};
ghost use Rattle.wh_refute.specs.Refuting.{IsGoodEntry, IsRefutation};
ghost use Rattle.wh_refute.specs.Told.{Tells};
ghost use Rattle.wh_sat.specs.Learning.{Refutes};

use crate::hints::hints_for;
use std::alloc::{AllocError, Global};
use wh_refute::Truth;
use wh_sat::copy_clause;
use wh_sat_trail::{Clause, Entry, Formula, Literal, Refutation};

/// The list of the clauses behind those that were given, each refuted by propagation from those before it, and of the
/// empty clause.
pub fn refutation_of(
    alloc: Global,
    formula: &Formula,
    given: usize,
) -> Result<Refutation, AllocError>
    requires within { Within formula.now.variables formula.now.clauses }
    requires given { given ≤ length formula.now.clauses }
    requires few { length formula.now.clauses ≤ 2 ^ 32 }
    requires learnt { (k : ℕ) → given ≤ k → k < length formula.now.clauses
        → Refutes (take k formula.now.clauses) (map negated (get_or formula.now.clauses k [])) }
    requires refuted { Refutes formula.now.clauses [] }
    ensures refutes { IfOk result (IsRefutation formula.now.variables (take given formula.now.clauses)) }
    ensures count { IfOk result (λ list. length list + given ≡ length formula.now.clauses + 1) }
    ensures hints { IfOk result (λ list. (e : Entry) → Contains list e → length e.hints ≤ formula.now.variables + 1) }
{
    let clauses = formula.clauses.as_slice();
    let mut truth = Truth::new(alloc, formula.variables)?;
    let mut list = Refutation::new(alloc);
    for number in given..clauses.len() {
        list.push(entry_for(
            alloc,
            &mut truth,
            formula.variables,
            &clauses[..number],
            clauses[number].as_slice(),
        )?)?;
    }
    list.push(entry_for(alloc, &mut truth, formula.variables, clauses, &[])?)?;
    Ok(list)
}

// The entry of a clause behind others, from which propagation refutes it.
fn entry_for(
    alloc: Global,
    truth: &mut Truth,
    variables: u32,
    before: &[Clause],
    literals: &[Literal],
) -> Result<Entry, AllocError>
    requires tells { Tells variables truth.old [] }
    requires round { truth.old.round + 1 < 2 ^ 64 }
    requires within { Within variables before.now }
    requires below { AllBelow variables literals.now }
    requires few { length before.now ≤ 2 ^ 32 }
    requires refuted { Refutes before.now (map negated literals.now) }
    ensures good { IfOk result (IsGoodEntry variables before.now) }
    ensures clause { IfOk result (λ entry. entry.clause ≡ literals.now) }
    ensures count { IfOk result (λ entry. length entry.hints ≤ variables + 1) }
    ensures tells { OnOk result (Tells variables truth.new []) }
    ensures round { OnOk result (truth.new.round ≡ truth.old.round + 1) }
{
    let hints = hints_for(alloc, truth, variables, before, literals)?;
    let clause = copy_clause(alloc, literals)?;
    truth.clear();
    Ok(Entry { clause, hints })
}
