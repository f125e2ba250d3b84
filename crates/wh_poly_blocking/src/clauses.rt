//! Blocked clauses, which shut out a guess, and copies of clauses.

ghost use Rattle.std.specs.List.{flat_map};
ghost use Rattle.std.specs.Prelude.{◌≡◌, ◌+◌, ◌-◌, ◌<◌, ◌++◌, All, IfOk, OnOk, length};
ghost use Rattle.wh_poly_blocking.specs.Literals.{literals_from, literals_on};
ghost use Rattle.wh_poly_blocking.specs.Sizes.{value_of};

use crate::bits::bit;
use std::alloc::{AllocError, Global};
use wh_sat_trail::{Clause, Clauses, Literal};

/// The clause of the literals that are false under the values, on the bits of the symbols with these numbers. The list
/// has the first bit of each symbol.
pub fn clause_of(
    alloc: Global,
    values: &[bool],
    first_bits: &[u32],
    numbers: &[usize],
) -> Result<Clause, AllocError>
    requires { All (λ n. n + 1 < length first_bits.now) numbers.now }
    ensures { IfOk result (λ clause. clause ≡ flat_map (literals_on (value_of values.now) first_bits.now) numbers.now) }
{
    let mut clause = Clause::new(alloc);
    for number in numbers {
        push_literals(
            &mut clause,
            values,
            first_bits[*number],
            first_bits[*number + 1],
        )?;
    }
    Ok(clause)
}

// The literals that are false on the bits from `from` up to `to` join.
fn push_literals(clause: &mut Clause, values: &[bool], from: u32, to: u32) -> Result<(), AllocError>
    ensures { OnOk result (clause.new ≡ clause.old ++ literals_from (value_of values.now) from (to - from)) }
{
    for variable in from..to {
        let positive = !bit(values, variable as usize);
        clause.push(Literal { variable, positive })?;
    }
    Ok(())
}

/// A list with the same clauses.
pub fn copy_clauses(alloc: Global, clauses: &Clauses) -> Result<Clauses, AllocError>
    ensures { IfOk result (λ made. made ≡ clauses.now) }
{
    let mut made = Clauses::new(alloc);
    for clause in clauses.as_slice() {
        made.push(copy_clause(alloc, clause.as_slice())?)?;
    }
    Ok(made)
}

// A clause with the same literals.
fn copy_clause(alloc: Global, literals: &[Literal]) -> Result<Clause, AllocError>
    ensures { IfOk result (λ made. made ≡ literals.now) }
{
    let mut clause = Clause::new(alloc);
    for literal in literals {
        clause.push(*literal)?;
    }
    Ok(clause)
}
