//! Values for the variables of a formula, and whether they are a model.

ghost use Rattle.std.specs.Bool.{OnTrue};
ghost use Rattle.std.specs.Prelude.{◌≡◌, get_or, false, true};
ghost use Rattle.wh_sat.specs.Solving.{Solves, clause_true};

use std::alloc::{AllocError, Global};
use wh_sat_trail::{Clause, Literal, Trail};

/// The values that a trail gives, and `false` where there is none.
pub fn values_of(alloc: Global, trail: &Trail) -> Result<Vec<bool>, AllocError> {
    let variables = trail.formula().variables;
    let mut values = Vec::with_capacity(alloc, variables as usize)?;
    for variable in 0..variables {
        values.push(trail.value(variable) == Some(true))?;
    }
    Ok(values)
}

/// Whether all clauses are true under the values.
pub fn is_model(clauses: &[Clause], values: &[bool]) -> bool
    ensures { OnTrue result (Solves (λ v. get_or values.now v false) clauses.now) }
{
    for clause in clauses {
        if !is_true(clause.as_slice(), values) {
            return false;
        }
    }
    true
}

// Whether a literal of the clause is true under the values.
fn is_true(clause: &[Literal], values: &[bool]) -> bool
    ensures { OnTrue result (clause_true (λ v. get_or values.now v false) clause.now ≡ true) }
{
    for literal in clause {
        if let Some(value) = values.get(literal.variable as usize) {
            if *value == literal.positive {
                return true;
            }
        }
    }
    false
}
