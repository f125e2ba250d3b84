//! The conditions of the subterm criterion by numbers, in the order in which they are tested.

ghost use Rattle.std.specs.Prelude.{◌<◌, All, List, MatchResult, length, map};
ghost use Rattle.wh_pairs.specs.PairData.{IsIncreasing, PairData};
ghost use Rattle.wh_system.specs.SystemView.{system_data};
ghost use Rattle.wh_subterm.specs.SubtermRows.{IsFirstSubtermFault, IsProjection, chosen};
ghost use Rattle.wh_intern.specs.TableTrees.{trees};
ghost use Rattle.wh_intern_pairs.specs.NumberedSides.{AreSides};

use crate::decrease::first_not_decreasing;
use crate::marked::{are_for_marked, first_out_of_place, first_without_argument};
use wh_intern::{Sides, Table};
use wh_pairs::{PairSet, is_bad_drop};
use wh_subterm::{Choice, Projection, SubtermFault};
use wh_system::System;

/// Whether a projection lets the pairs in `drop` go from the set (the subterm criterion of Kop 2012, in the form of
/// this project): the test of `wh_subterm::check_projection` for pairs whose sides are numbered in the table.
///
/// Equal sides are equal numbers. `Err` names the first condition that fails, in the order of the variants; of the
/// symbols the first one in order, of the pairs the least one. No memory is taken.
pub fn check_numbered(
    system: &System,
    table: &Table,
    sides: &[Sides],
    set: &PairSet,
    args: &Projection,
    drop: &[u32],
) -> Result<(), SubtermFault>
    requires sides { (ps : List PairData) × AreSides (trees table.now) sides.now ps }
    requires set { All (λ n. n < length sides.now) set.now }
    ensures { (ps : List PairData) → AreSides (trees table.now) sides.now ps
        → MatchResult result (λ _. IsProjection (system_data system.now).rules ps set.now (map chosen args.now) drop.now)
        (IsFirstSubtermFault (system_data system.now).rules ps set.now (map chosen args.now) drop.now) }
{
    check_conditions(system, table, sides, set.as_slice(), args.as_slice(), drop)
}

// Checks the conditions over the elements of the lists.
fn check_conditions(
    system: &System,
    table: &Table,
    sides: &[Sides],
    set: &[u32],
    args: &[Choice],
    drop: &[u32],
) -> Result<(), SubtermFault>
    requires sides { (ps : List PairData) × AreSides (trees table.now) sides.now ps }
    requires set { All (λ n. n < length sides.now) set.now }
    requires increasing { IsIncreasing set.now }
    ensures { (ps : List PairData) → AreSides (trees table.now) sides.now ps
        → MatchResult result (λ _. IsProjection (system_data system.now).rules ps set.now (map chosen args.now) drop.now)
        (IsFirstSubtermFault (system_data system.now).rules ps set.now (map chosen args.now) drop.now) }
{
    if !are_for_marked(sides, set, args) {
        return Err(SubtermFault::BadArgs);
    }
    if let Some(symbol) = first_without_argument(system, args) {
        return Err(SubtermFault::NoProjection { symbol });
    }
    if let Some(symbol) = first_out_of_place(system, args) {
        return Err(SubtermFault::BadArgument { symbol });
    }
    if is_bad_drop(set, drop) {
        return Err(SubtermFault::BadDrop);
    }
    match first_not_decreasing(table, sides, set, args, drop) {
        Some(pair) => Err(SubtermFault::NotDecreasing { pair }),
        None => Ok(()),
    }
}
