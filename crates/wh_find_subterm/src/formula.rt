//! The formula whose models are the projections of a set of pairs that let a pair go.

ghost use Rattle.std.specs.Prelude.{◌≡◌, ◌+◌, ◌<◌, ◌≤◌, ◌^◌, ℕ, All, IfOk, IfSome, length, map};
ghost use Rattle.wh_pairs.specs.PairData.{pair_data};
ghost use Rattle.wh_intern_pairs.specs.Numberings.{IsNumbering};
ghost use Rattle.wh_find_subterm.specs.Clauses.{clauses_of};
ghost use Rattle.wh_find_subterm.specs.Formula.{IsFormula};
ghost use Rattle.wh_find_subterm.specs.Rows.{row_of};

use crate::cases::{Case, cases_of};
use crate::clauses::{add_fourth, add_one_chosen, add_only_one_chosen, add_third, some_of};
use crate::rows::Rows;
use std::alloc::{AllocError, Global};
use wh_intern_pairs::Numbered;
use wh_pairs::Pair;
use wh_sat_trail::{Clauses, Formula};

/// The formula of a set of pairs over the rows of its marked symbols. More variables than numbers count as want of
/// memory.
pub fn formula_of(
    alloc: Global,
    rows: &Rows,
    pairs: &[Pair],
    numbered: Option<&Numbered>,
    set: &[u32],
) -> Result<Formula, AllocError>
    requires set { All (λ n. n < length pairs.now) set.now }
    requires numbered { IfSome numbered (λ n. IsNumbering n.now (map pair_data pairs.now)) }
    requires each { All (λ r. r.first + r.need ≤ rows.now.end) rows.now.items.items }
    requires rows { (f : ℕ) → (row_of rows.now.items.items f).first + (row_of rows.now.items.items f).need ≤ rows.now.end }
    ensures small { IfOk result (λ made. made.variables < 2 ^ 32) }
    ensures formula { IfOk result (λ made. IsFormula rows.now.items.items rows.now.end (map pair_data pairs.now)
        set.now made.variables made.clauses) }
{
    let count = u32::try_from(set.len()).or(Err(AllocError))?;
    let variables = rows.end.checked_add(count).ok_or(AllocError)?;
    let cases = cases_of(alloc, &rows.items, rows.end, pairs, numbered, set)?;
    let clauses = clauses_of(alloc, rows, &cases, count)?;
    Ok(Formula { variables, clauses })
}

// The clauses of the formula.
fn clauses_of(alloc: Global, rows: &Rows, cases: &[Case], count: u32) -> Result<Clauses, AllocError>
    requires room { rows.now.end + count < 2 ^ 32 }
    requires each { All (λ r. r.first + r.need ≤ rows.now.end) rows.now.items.items }
    ensures { IfOk result (λ made. made ≡ clauses_of rows.now.items.items cases.now rows.now.end count) }
{
    let mut clauses = Clauses::new(alloc);
    add_one_chosen(alloc, &mut clauses, &rows.items)?;
    add_only_one_chosen(alloc, &mut clauses, &rows.items)?;
    add_third(alloc, &mut clauses, cases)?;
    add_fourth(alloc, &mut clauses, cases)?;
    clauses.push(some_of(alloc, rows.end, count)?)?;
    Ok(clauses)
}
