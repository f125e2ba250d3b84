//! Reading formulas in DIMACS form.

ghost use Rattle.std.specs.Bool.{OnTrue};
ghost use Rattle.std.specs.Prelude.{IfOk};
ghost use Rattle.wh_sat_trail.specs.Assignment.{AllBelow};
ghost use Rattle.wh_sat_trail.specs.Propagation.{Within};

use std::alloc::{AllocError, Global};
use wh_sat_trail::{Clause, Clauses, Formula, Literal};

/// The formula of a text. Each clause ends with `0`; lines that begin with another letter than `p` are passed over.
pub fn read(alloc: Global, text: &str) -> Result<Formula, AllocError>
    ensures { IfOk result (λ made. Within made.variables made.clauses) }
{
    let mut formula = Formula {
        variables: 0,
        clauses: Clauses::new(alloc),
    };
    let mut clause = Clause::new(alloc);
    for line in text.lines() {
        if line.starts_with('p') {
            formula.variables = head(line)?;
        } else if !line.starts_with('c') {
            clause = read_line(alloc, line, &mut formula.clauses, clause)?;
        }
    }
    if is_within(&formula) {
        return Ok(formula);
    }
    Err(AllocError)
}

// The number of variables in the line `p cnf VARIABLES CLAUSES`.
fn head(line: &str) -> Result<u32, AllocError> {
    let word = line.split_whitespace().nth(2).ok_or(AllocError)?;
    word.parse().or(Err(AllocError))
}

// The clauses that end in a line join the others; what is begun is handed back.
fn read_line(
    alloc: Global,
    line: &str,
    clauses: &mut Clauses,
    begun: Clause,
) -> Result<Clause, AllocError> {
    let mut clause = begun;
    for word in line.split_whitespace() {
        let number: i32 = word.parse().or(Err(AllocError))?;
        if number == 0 {
            clauses.push(clause)?;
            clause = Clause::new(alloc);
        } else {
            clause.push(literal_of(number))?;
        }
    }
    Ok(clause)
}

/// The literal that such a number other than 0 writes: of the variable with the next lesser number, negated where it is
/// below 0.
pub fn literal_of(number: i32) -> Literal {
    Literal {
        variable: number.unsigned_abs().saturating_sub(1),
        positive: number > 0,
    }
}

// Whether the clauses have no variables but those of the formula.
fn is_within(formula: &Formula) -> bool
    ensures { OnTrue result (Within formula.now.variables formula.now.clauses) }
{
    for clause in formula.clauses.as_slice() {
        if !is_below(formula.variables, clause.as_slice()) {
            return false;
        }
    }
    true
}

// Whether the literals' variables are below a number.
fn is_below(variables: u32, clause: &[Literal]) -> bool
    ensures { OnTrue result (AllBelow variables clause.now) }
{
    for literal in clause {
        if literal.variable >= variables {
            return false;
        }
    }
    true
}
