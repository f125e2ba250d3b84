//! Solving a formula with a list of clauses as evidence. `solve_listed` is the main function.

ghost use Rattle.std.specs.Bool.{OnTrue};
ghost use Rattle.std.specs.Prelude.{◌≡◌, ◌+◌, ◌-◌, ◌<◌, ◌≤◌, ◌^◌, Contains, IfOk, IfSome, false, get_or, length};
ghost use Rattle.wh_sat_trail.specs.Propagation.{Within};
ghost use Rattle.wh_sat_trail.specs.declared.entry.Entry.{Entry};
ghost use Rattle.wh_sat.specs.Solving.{Solves};
ghost use Rattle.wh_sat_listed.specs.Listing.{IsListed, IsShort};

use crate::listing::refutation_of;
use std::alloc::{AllocError, Global};
use wh_refute::check_refutation;
use wh_sat::{Learner, Next, copy_clauses};
use wh_sat_engine::{Attempt, is_model, run_engine};
use wh_sat_trail::{Clauses, Entry, Formula, Refutation};
use wh_types::Or;

/// The outcome for a formula.
#[derive(Drop)]
pub enum Listed {
    /// A truth value for each variable, under which all clauses are true.
    Sat(Vec<bool>),
    /// No values make all clauses true, and this list shows it.
    Unsat(Refutation),
    /// The clauses that were learnt, as many as may be. Whether there is a model is open.
    Spent(Clauses),
}

/// Solves a formula as `solve` of wh_sat does, and where it has no model gives a list that shows it. The engine of
/// wh_sat_engine searches first. Its result is believed only after a look: values have to make all clauses true, and
/// the checker has to accept a list. Where it finds neither, the solver of wh_sat goes on; its list is of the clauses
/// that it learnt, in their order, with hints that are sought once its search has ended, and of the empty clause. At
/// most `budget` clauses are learnt; where none may be, the answer is `Spent`. The error is want of memory.
pub fn solve_listed(alloc: Global, formula: &Formula, budget: u64) -> Result<Listed, AllocError>
    requires within { Within formula.now.variables formula.now.clauses }
    requires few { length formula.now.clauses + budget < 2 ^ 31 - 1 }
    ensures { IfOk result (IsListed formula.now.variables formula.now.clauses budget) }
{
    if budget > 0 {
        if let Some(listed) = tried(alloc, formula, budget)? {
            return Ok(listed);
        }
    }
    searched(alloc, formula, budget)
}

// What the engine finds, if that is right.
fn tried(alloc: Global, formula: &Formula, budget: u64) -> Result<Option<Listed>, AllocError>
    requires within { Within formula.now.variables formula.now.clauses }
    requires few { length formula.now.clauses + budget < 2 ^ 31 - 1 }
    requires some { 0 < budget }
    ensures { IfOk result (λ o. IfSome o (IsListed formula.now.variables formula.now.clauses budget)) }
{
    match run_engine(alloc, formula, budget)? {
        Attempt::Values(values) => Ok(values_believed(formula, budget, values)),
        Attempt::List(list) => list_believed(alloc, formula, budget, list),
        Attempt::Nothing => Ok(None),
    }
}

// The values, if they are right.
fn values_believed(formula: &Formula, budget: u64, values: Vec<bool>) -> Option<Listed>
    requires { 0 < budget }
    ensures { IfSome result (IsListed formula.now.variables formula.now.clauses budget) }
{
    let _budget = budget;
    if is_solution(formula, values.as_slice()) {
        return Some(Listed::Sat(values));
    }
    None
}

// The list, if the checker accepts it.
fn list_believed(
    alloc: Global,
    formula: &Formula,
    budget: u64,
    list: Refutation,
) -> Result<Option<Listed>, AllocError>
    requires within { Within formula.now.variables formula.now.clauses }
    requires few { length formula.now.clauses + budget < 2 ^ 31 - 1 }
    requires some { 0 < budget }
    ensures { IfOk result (λ o. IfSome o (IsListed formula.now.variables formula.now.clauses budget)) }
{
    if is_refutation(alloc, formula, budget, &list)? {
        return Ok(Some(Listed::Unsat(list)));
    }
    Ok(None)
}

// Whether there is a value for each variable, and all clauses are true under them.
fn is_solution(formula: &Formula, values: &[bool]) -> bool
    ensures { OnTrue result ((length values.now ≡ formula.now.variables)
        × Solves (λ v. get_or values.now v false) formula.now.clauses) }
{
    if values.len() != formula.variables as usize {
        return false;
    }
    is_model(formula.clauses.as_slice(), values)
}

// Whether the list refutes the formula, and is no longer than the budget and the number of variables allow.
fn is_refutation(
    alloc: Global,
    formula: &Formula,
    budget: u64,
    list: &Refutation,
) -> Result<bool, AllocError>
    requires within { Within formula.now.variables formula.now.clauses }
    requires few { length formula.now.clauses + budget < 2 ^ 31 - 1 }
    ensures { IfOk result (λ b. OnTrue b (IsShort formula.now.variables formula.now.clauses budget list.now)) }
{
    let variables = formula.variables;
    if !is_short(list.as_slice(), variables, budget) {
        return Ok(false);
    }
    match check_refutation(alloc, formula, list) {
        Ok(_) => Ok(true),
        Err(Or::Because(_)) => Ok(false),
        Err(Or::NoMemory) => Err(AllocError),
    }
}

// Whether there are no more entries than the budget, and one more, and none has more hints than there are variables,
// and one more.
fn is_short(entries: &[Entry], variables: u32, budget: u64) -> bool
    ensures count { OnTrue result (length entries.now ≤ budget + 1) }
    ensures hints { OnTrue result ((e : Entry) → Contains entries.now e → length e.hints ≤ variables + 1) }
{
    for entry in entries {
        if entry.hints.as_slice().len() > variables as usize + 1 {
            return false;
        }
    }
    entries.len() as u64 <= budget.saturating_add(1)
}

// What the solver of wh_sat finds.
fn searched(alloc: Global, formula: &Formula, budget: u64) -> Result<Listed, AllocError>
    requires within { Within formula.now.variables formula.now.clauses }
    requires few { length formula.now.clauses + budget < 2 ^ 31 - 1 }
    ensures { IfOk result (IsListed formula.now.variables formula.now.clauses budget) }
{
    let given = formula.clauses.as_slice().len();
    let clauses = copy_clauses(alloc, &formula.clauses, 0)?;
    let copy = Formula {
        variables: formula.variables,
        clauses,
    };
    let mut learner = Learner::new(alloc, copy, budget)?;
    let next = learner.next()?;
    match next {
        Next::Model(values) => Ok(Listed::Sat(values)),
        Next::Exhausted => {
            let list = refutation_of(alloc, learner.formula(), given)?;
            Ok(Listed::Unsat(list))
        }
        Next::Spent => {
            let learnt = copy_clauses(alloc, &learner.formula().clauses, given)?;
            Ok(Listed::Spent(learnt))
        }
    }
}
