//! Rows of the solver: small formulas with their answers.

use crate::formulas::{are_within, clauses_of};
use std::alloc::{AllocError, Global};
use std::test::Fail;
use wh_sat::{Outcome, solve};
use wh_sat_trail::Formula;

/// The answer for a formula; want of memory stands for one that has too few variables.
pub fn solved(alloc: Global, formula: &Formula, budget: u64) -> Result<Outcome, AllocError> {
    if !are_within(formula.variables, formula.clauses.as_slice()) {
        return Err(AllocError);
    }
    solve(alloc, formula, budget)
}

/// What the answer is, with the value of a single variable.
fn told(outcome: Outcome) -> &'static str {
    match outcome {
        Outcome::Sat(values) => match values.as_slice() {
            [] => "sat",
            [value] => { if *value { "sat 1" } else { "sat 0" } }
            _ => "sat ..",
        },
        Outcome::Unsat => "unsat",
        Outcome::Spent(learnt) => {
            if learnt.as_slice().is_empty() {
                "spent"
            } else {
                "spent .."
            }
        }
    }
}

/// Clauses over two variables that refuse each pair of values.
pub const REFUSED: &[&[i32]] = &[&[1, 2], &[1, -2], &[-1, 2], &[-1, -2]];

/// Formulas and budgets with the answers.
const ANSWERS: &[(u32, &[&[i32]], u64, &str)] = &[
    (1, &[&[1], &[-1]], 1, "unsat"),
    (1, &[&[1]], 1, "sat 1"),
    (1, &[&[1]], 0, "spent"),
    (1, &[&[1], &[-1]], 0, "spent"),
    (0, &[], 1, "sat"),
    (0, &[&[]], 1, "unsat"),
    (0, &[&[]], 0, "spent"),
    (2, REFUSED, 10, "unsat"),
    (2, REFUSED, 0, "spent"),
];

#[test]
fn solves_small_formulas(rt: HostRuntime) -> Result<(), Fail> {
    let alloc = rt.alloc();
    for (variables, lists, budget, expected) in ANSWERS {
        let formula = Formula {
            variables: *variables,
            clauses: clauses_of(alloc, *lists)?,
        };
        let answer = solved(alloc, &formula, *budget)?;
        assert_eq!(rt; told(answer), *expected);
    }
    Ok(())
}
