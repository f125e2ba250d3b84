//! Solving a formula, with a bound on the clauses that may be learnt. `solve` is the main function.

ghost use Rattle.std.specs.Prelude.{◌≡◌, IfOk, length};
ghost use Rattle.wh_sat.specs.Outcomes.{IsOutcome};
ghost use Rattle.wh_sat_trail.specs.Propagation.{Within};

use crate::copying::copy_clauses;
use crate::learner::{Learner, Next};
use std::alloc::{AllocError, Global};
use wh_sat_trail::{Clauses, Formula};

/// The outcome for a formula.
pub enum Outcome {
    /// A truth value for each variable, under which all clauses are true.
    Sat(Vec<bool>),
    /// No values make all clauses true.
    Unsat,
    /// The clauses that were learnt, as many as may be. Whether there is a model is open.
    Spent(Clauses),
}

/// The answer of a finder.
pub enum Search<T> {
    /// The thing that the finder looked for.
    Found(T),
    /// There is no such thing.
    Nothing,
    /// The clauses that it learnt or made, as many as may be.
    Spent(Clauses),
}

/// Solves a formula. At most `budget` clauses are learnt; where none may be, the answer is `Spent`. The error is want
/// of memory.
pub fn solve(alloc: Global, formula: &Formula, budget: u64) -> Result<Outcome, AllocError>
    requires { Within formula.now.variables formula.now.clauses }
    ensures { IfOk result (IsOutcome formula.now.variables formula.now.clauses budget) }
{
    let clauses = copy_clauses(alloc, &formula.clauses, 0)?;
    solve_owned(
        alloc,
        Formula {
            variables: formula.variables,
            clauses,
        },
        budget,
    )
}

/// Solves a formula as `solve` does, and takes it, where the caller needs it no more.
pub fn solve_owned(alloc: Global, formula: Formula, budget: u64) -> Result<Outcome, AllocError>
    requires { Within formula.variables formula.clauses }
    ensures { IfOk result (IsOutcome formula.variables formula.clauses budget) }
{
    let given = formula.clauses.as_slice().len();
    let mut learner = Learner::new(alloc, formula, budget)?;
    let next = learner.next()?;
    match next {
        Next::Model(values) => Ok(Outcome::Sat(values)),
        Next::Exhausted => Ok(Outcome::Unsat),
        Next::Spent => {
            let learnt = copy_clauses(alloc, &learner.formula().clauses, given)?;
            Ok(Outcome::Spent(learnt))
        }
    }
}
