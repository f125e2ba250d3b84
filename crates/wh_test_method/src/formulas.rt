//! Formulas from lists of numbers.

ghost use Rattle.std.specs.Bool.{OnTrue};
ghost use Rattle.std.specs.Prelude.{◌<◌, ◌↔◌, IsTrue};
ghost use Rattle.wh_sat_trail.specs.Assignment.{AllBelow};
ghost use Rattle.wh_sat_trail.specs.Propagation.{Within};

use std::alloc::{AllocError, Global};
use wh_sat_trail::{Clause, Clauses, Literal};

// The literal of a number as in files of formulas: `n` is the variable `n - 1`, and `-n` its negation.
fn literal_of(number: i32) -> Literal {
    Literal {
        variable: number.unsigned_abs().saturating_sub(1),
        positive: number > 0,
    }
}

/// The clause of numbers.
pub fn clause_of(alloc: Global, numbers: &[i32]) -> Result<Clause, AllocError> {
    let mut clause = Clause::new(alloc);
    for number in numbers {
        clause.push(literal_of(*number))?;
    }
    Ok(clause)
}

/// The clauses of numbers.
pub fn clauses_of(alloc: Global, lists: &[&[i32]]) -> Result<Clauses, AllocError> {
    let mut clauses = Clauses::new(alloc);
    for list in lists {
        clauses.push(clause_of(alloc, *list)?)?;
    }
    Ok(clauses)
}

// Whether the literal's variable is below a number.
fn is_below(variables: u32, literal: Literal) -> bool
    ensures { IsTrue result ↔ literal.variable < variables }
{
    literal.variable < variables
}

/// Whether the variables of all literals are below a number.
pub fn are_below(variables: u32, clause: &[Literal]) -> bool
    ensures { OnTrue result (AllBelow variables clause.now) }
{
    for literal in clause {
        if !is_below(variables, *literal) {
            return false;
        }
    }
    true
}

/// Whether the variables of all clauses are below a number.
pub fn are_within(variables: u32, clauses: &[Clause]) -> bool
    ensures { OnTrue result (Within variables clauses.now) }
{
    for clause in clauses {
        if !are_below(variables, clause.as_slice()) {
            return false;
        }
    }
    true
}
