//! Copies of clauses and of lists of clauses.

ghost use Rattle.std.specs.Prelude.{◌≡◌, IfOk, drop};

use std::alloc::{AllocError, Global};
use wh_sat_trail::{Clause, Clauses, Literal};

/// A clause with the same literals. The error is want of memory.
pub fn copy_clause(alloc: Global, literals: &[Literal]) -> Result<Clause, AllocError>
    ensures { IfOk result (λ made. made ≡ literals.now) }
{
    let mut clause = Clause::new(alloc);
    for literal in literals {
        clause.push(*literal)?;
    }
    Ok(clause)
}

/// A list with the same clauses, from a place on. The error is want of memory.
pub fn copy_clauses(alloc: Global, clauses: &Clauses, from: usize) -> Result<Clauses, AllocError>
    ensures { IfOk result (λ made. made ≡ drop from clauses.now) }
{
    let mut made = Clauses::new(alloc);
    let all = clauses.as_slice();
    for place in from..all.len() {
        made.push(copy_clause(alloc, all[place].as_slice())?)?;
    }
    Ok(made)
}
