//! The clauses of the formula of projections: which choices of arguments they allow.

ghost use Rattle.std.specs.Prelude.{◌≡◌, ◌+◌, ◌<◌, ◌≤◌, ◌^◌, ◌++◌, [], ◌∷◌, All, IfOk, OnOk, map};
ghost use Rattle.std.specs.List.{flat_map};
ghost use Rattle.wh_find_subterm.specs.Clauses.{fourth, no, no_two, not_both, one_chosen, only_one_chosen, some_of, third, with_each};

use crate::cases::Case;
use crate::rows::Row;
use std::alloc::{AllocError, Global};
use wh_sat_trail::{Clause, Clauses, Literal};
use wh_subterm::Relation;

/// The clause that one of `count` variables from `first` on is true.
pub fn some_of(alloc: Global, first: u32, count: u32) -> Result<Clause, AllocError>
    requires { first + count < 2 ^ 32 }
    ensures { IfOk result (λ clause. clause ≡ some_of first count) }
{
    let mut clause = Clause::new(alloc);
    for place in 0..count {
        clause.push(Literal {
            variable: first + place,
            positive: true,
        })?;
    }
    Ok(clause)
}

// The clause that two variables are not both true; the literals stand in the order of their variables, each once.
fn not_both(alloc: Global, left: u32, right: u32) -> Result<Clause, AllocError>
    ensures { IfOk result (λ clause. clause ≡ not_both left right) }
{
    let mut clause = Clause::new(alloc);
    if left < right {
        clause.push(negative(left))?;
    }
    clause.push(negative(right))?;
    if right < left {
        clause.push(negative(left))?;
    }
    Ok(clause)
}

fn negative(variable: u32) -> Literal
    ensures { result ≡ no variable }
{
    Literal {
        variable,
        positive: false,
    }
}

/// The clauses that of each symbol some argument is chosen join.
pub fn add_one_chosen(alloc: Global, clauses: &mut Clauses, rows: &[Row]) -> Result<(), AllocError>
    requires { All (λ r. r.first + r.need < 2 ^ 32) rows.now }
    ensures { OnOk result (clauses.new ≡ clauses.old ++ map one_chosen rows.now) }
{
    for row in rows {
        clauses.push(some_of(alloc, row.first, row.need)?)?;
    }
    Ok(())
}

/// The clauses that of each symbol no two arguments are chosen join.
pub fn add_only_one_chosen(
    alloc: Global,
    clauses: &mut Clauses,
    rows: &[Row],
) -> Result<(), AllocError>
    requires { All (λ r. r.first + r.need < 2 ^ 32) rows.now }
    ensures { OnOk result (clauses.new ≡ clauses.old ++ flat_map only_one_chosen rows.now) }
{
    for row in rows {
        add_no_two(alloc, clauses, row.first, row.need)?;
    }
    Ok(())
}

// The clauses that no two of `count` variables from `first` on are true join.
fn add_no_two(
    alloc: Global,
    clauses: &mut Clauses,
    first: u32,
    count: u32,
) -> Result<(), AllocError>
    requires { first + count < 2 ^ 32 }
    ensures { OnOk result (clauses.new ≡ clauses.old ++ no_two first count) }
{
    for place in 0..count {
        add_pairs_with(alloc, clauses, first + place, count - place - 1)?;
    }
    Ok(())
}

// The clauses that the variable `first` and each of `count` variables behind it are not both true join.
fn add_pairs_with(
    alloc: Global,
    clauses: &mut Clauses,
    first: u32,
    count: u32,
) -> Result<(), AllocError>
    requires { first + 1 + count < 2 ^ 32 }
    ensures { OnOk result (clauses.new ≡ clauses.old ++ with_each first count) }
{
    for place in 0..count {
        clauses.push(not_both(alloc, first, first + 1 + place)?)?;
    }
    Ok(())
}

/// The clauses that no two arguments are chosen under which a pair is neither equal nor below join.
pub fn add_third(alloc: Global, clauses: &mut Clauses, cases: &[Case]) -> Result<(), AllocError>
    ensures { OnOk result (clauses.new ≡ clauses.old ++ flat_map third cases.now) }
{
    for case in cases {
        if matches!(case.relation, Relation::Neither) {
            clauses.push(not_both(alloc, case.left, case.right)?)?;
        }
    }
    Ok(())
}

/// The clauses join that say: where two arguments are chosen under which a pair is not below, its variable is false.
pub fn add_fourth(alloc: Global, clauses: &mut Clauses, cases: &[Case]) -> Result<(), AllocError>
    ensures { OnOk result (clauses.new ≡ clauses.old ++ flat_map fourth cases.now) }
{
    for case in cases {
        if !matches!(case.relation, Relation::Below) {
            let mut clause = not_both(alloc, case.left, case.right)?;
            clause.push(negative(case.own))?;
            clauses.push(clause)?;
        }
    }
    Ok(())
}
