//! The search for a projection that lets pairs go. `find_projection` is the main function: the models of a formula are
//! the projections, and a solver looks for one.

ghost use Rattle.std.specs.Prelude.{◌≢◌, ◌≡◌, ◌+◌, ◌<◌, ◌^◌, ℕ, [], false, All, IfOk, IfSome, get_or, length, map};
ghost use Rattle.wh_pairs.specs.PairData.{IsIncreasing, pair_data};
ghost use Rattle.wh_system.specs.SystemView.{system_data};
ghost use Rattle.wh_subterm.specs.SubtermRows.{chosen};
ghost use Rattle.wh_intern_pairs.specs.Numberings.{IsNumbering};
ghost use Rattle.wh_sat_trail.specs.Propagation.{Within};
ghost use Rattle.wh_find_subterm.specs.Formula.{IsProjections};
ghost use Rattle.wh_find_subterm.specs.Found.{IsAnswer};
ghost use Rattle.wh_find_subterm.specs.Reading.{IsBelowSet, chosen_by};

use crate::formula::formula_of;
use crate::reading::{below_under, choices_by};
use crate::rows::{Row, rows_of};
use std::alloc::{AllocError, Global};
use wh_intern_pairs::Numbered;
use wh_pairs::{Pair, PairList, PairSet, marked_symbols};
use wh_sat::{Outcome, Search, solve_owned};
use wh_sat_trail::Formula;
use wh_subterm::Projection;
use wh_system::System;

/// A projection and the pairs that it lets go.
#[derive(Drop)]
pub struct ProjectionFound {
    /// For each marked symbol of the set one of its arguments.
    pub args: Projection,
    /// The pairs of the set that it lets go.
    pub drop: PairSet,
}

/// A projection of the set that lets pairs go (the subterm criterion of Kop 2012), found as a model of a formula.
///
/// `Found` drops every pair that is below, though a certificate may keep some: fewer pairs never make the rest harder.
/// `Nothing` comes only where no projection of the marked symbols drops a pair of the set, and `Spent` only with as
/// many learnt clauses as the budget allows; with a budget of 0 it comes always.
pub fn find_projection(
    alloc: Global,
    system: &System,
    pairs: &PairList,
    set: &PairSet,
    budget: u64,
) -> Result<Search<ProjectionFound>, AllocError>
    requires set { All (λ n. n < length pairs.now) set.now }
    requires some { set.now ≢ [] }
    ensures { IfOk result (IsAnswer (system_data system.now).rules (map pair_data pairs.now) set.now budget) }
{
    find_projection_by(alloc, system, pairs, None, set, budget)
}

/// Finds a projection by the numbers of the sides of all pairs, where there are some: equal sides have equal numbers.
pub fn find_projection_by(
    alloc: Global,
    system: &System,
    pairs: &PairList,
    numbered: Option<&Numbered>,
    set: &PairSet,
    budget: u64,
) -> Result<Search<ProjectionFound>, AllocError>
    requires set { All (λ n. n < length pairs.now) set.now }
    requires numbered { IfSome numbered (λ n. IsNumbering n.now (map pair_data pairs.now)) }
    requires some { set.now ≢ [] }
    ensures { IfOk result (IsAnswer (system_data system.now).rules (map pair_data pairs.now) set.now budget) }
{
    let symbols = marked_symbols(alloc, pairs, set)?;
    let rows = rows_of(alloc, system, &symbols)?;
    let formula = formula_of(alloc, &rows, pairs.as_slice(), numbered, set.as_slice())?;
    match solve_owned(alloc, formula, budget)? {
        Outcome::Sat(values) => {
            let found = read_model(
                alloc,
                &values,
                &rows.items,
                pairs.as_slice(),
                numbered,
                set.as_slice(),
            )?;
            Ok(Search::Found(found))
        }
        Outcome::Unsat => Ok(Search::Nothing),
        Outcome::Spent(learnt) => Ok(Search::Spent(learnt)),
    }
}

/// The formula that the search for a projection of the set asks the solver: its models are the projections that let a
/// pair go (`models_are_projections`, `projections_are_models`). The error is want of memory.
pub fn projection_formula(
    alloc: Global,
    system: &System,
    pairs: &PairList,
    set: &PairSet,
) -> Result<Formula, AllocError>
    requires { All (λ n. n < length pairs.now) set.now }
    ensures formula { IfOk result (λ made.
        IsProjections (system_data system.now).rules (map pair_data pairs.now) set.now made.variables made.clauses) }
    ensures within { IfOk result (λ made. Within made.variables made.clauses) }
{
    let symbols = marked_symbols(alloc, pairs, set)?;
    let rows = rows_of(alloc, system, &symbols)?;
    formula_of(alloc, &rows, pairs.as_slice(), None, set.as_slice())
}

// The projection that a model says, with the pairs that are below under it.
fn read_model(
    alloc: Global,
    values: &[bool],
    rows: &[Row],
    pairs: &[Pair],
    numbered: Option<&Numbered>,
    set: &[u32],
) -> Result<ProjectionFound, AllocError>
    requires set { All (λ n. n < length pairs.now) set.now }
    requires numbered { IfSome numbered (λ n. IsNumbering n.now (map pair_data pairs.now)) }
    requires increasing { IsIncreasing set.now }
    requires few { length values.now < 2 ^ 32 }
    requires rows { All (λ r. r.first + r.need < length values.now) rows.now }
    requires symbols { IsIncreasing (map (λ r. r.symbol) rows.now) }
    ensures args { IfOk result (λ found. map chosen found.args ≡ chosen_by (λ x. get_or values.now x false) rows.now) }
    ensures drop { IfOk result (λ found. IsBelowSet (map pair_data pairs.now) set.now (map chosen found.args) (length set.now) found.drop) }
{
    let args = choices_by(alloc, values, rows)?;
    let drop = below_under(alloc, pairs, numbered, set, args.as_slice())?;
    Ok(ProjectionFound { args, drop })
}
