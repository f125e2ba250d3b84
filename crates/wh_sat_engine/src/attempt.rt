//! The answers of the engine, and a call of it.

ghost use Rattle.wh_sat_trail.specs.Propagation.{Within};

use crate::engine::Engine;
use std::alloc::{AllocError, Global};
use wh_sat::copy_clauses;
use wh_sat_trail::{Formula, Refutation};

/// The outcome of a search. Nothing is claimed of the values or of the list: callers check them.
#[derive(Drop)]
pub enum Attempt {
    /// Values that the search ended with.
    Values(Vec<bool>),
    /// The clauses that were learnt, with hints, up to the empty one.
    List(Refutation),
    /// As many clauses were learnt as may be, with no result.
    Nothing,
}

/// Searches for values under which all clauses are true, or for a list that shows that there are none, and learns no
/// more clauses than the budget. The error is want of memory.
pub fn run_engine(alloc: Global, formula: &Formula, budget: u64) -> Result<Attempt, AllocError>
    requires { Within formula.now.variables formula.now.clauses }
{
    let variables = formula.variables;
    let clauses = copy_clauses(alloc, &formula.clauses, 0)?;
    let mut engine = Engine::new(alloc, Formula { variables, clauses })?;
    engine.search(budget)
}
