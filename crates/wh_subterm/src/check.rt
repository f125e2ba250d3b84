//! The conditions of the subterm criterion, in the order in which they are tested.

ghost use Rattle.std.specs.Prelude.{◌<◌, All, MatchResult, length, map};
ghost use Rattle.wh_pairs.specs.PairData.{IsIncreasing, pair_data};
ghost use Rattle.wh_system.specs.SystemView.{system_data};
ghost use Rattle.wh_subterm.specs.SubtermRows.{IsFirstSubtermFault, IsProjection, chosen};

use crate::decrease::first_not_decreasing;
use crate::marked::{are_for_marked, first_out_of_place, first_without_argument};
use crate::projection::{Choice, Projection, SubtermFault};
use wh_pairs::{Pair, PairList, PairSet, is_bad_drop};
use wh_system::System;

/// Whether a projection lets the pairs in `drop` go from the set (the subterm criterion of Kop 2012, in the form of
/// this project).
///
/// The choices must be for the marked symbols of the set: the symbols that head a side of one of its pairs, each once
/// and in order. Each names an argument that the rules of the symbol need, counted from 1. Under them every pair of the
/// set must be equal or below, and those in `drop`, which are some and each once, below. A pair is equal if its
/// projected sides are the same tree; it is below if the right one is a proper part of the left one, reached through
/// arguments of spines that symbols head.
///
/// `Err` names the first condition that fails, in the order of the variants; of the symbols the first one in order, of
/// the pairs the least one. No memory is taken.
pub fn check_projection(
    system: &System,
    pairs: &PairList,
    set: &PairSet,
    args: &Projection,
    drop: &[u32],
) -> Result<(), SubtermFault>
    requires { All (λ n. n < length pairs.now) set.now }
    ensures { MatchResult result (λ _. IsProjection (system_data system.now).rules (map pair_data pairs.now) set.now
        (map chosen args.now) drop.now) (IsFirstSubtermFault (system_data system.now).rules (map pair_data pairs.now) set.now
        (map chosen args.now) drop.now) }
{
    check_conditions(
        system,
        pairs.as_slice(),
        set.as_slice(),
        args.as_slice(),
        drop,
    )
}

// Whether the choices and the dropped pairs meet the conditions of `check_projection`, on the elements of the lists.
fn check_conditions(
    system: &System,
    pairs: &[Pair],
    set: &[u32],
    args: &[Choice],
    drop: &[u32],
) -> Result<(), SubtermFault>
    requires set { All (λ n. n < length pairs.now) set.now }
    requires increasing { IsIncreasing set.now }
    ensures { MatchResult result (λ _. IsProjection (system_data system.now).rules (map pair_data pairs.now) set.now
        (map chosen args.now) drop.now) (IsFirstSubtermFault (system_data system.now).rules (map pair_data pairs.now) set.now
        (map chosen args.now) drop.now) }
{
    if !are_for_marked(pairs, set, args) {
        return Err(SubtermFault::BadArgs);
    }
    if let Some(symbol) = first_without_argument(system, args) {
        return Err(SubtermFault::NoProjection { symbol });
    }
    if let Some(symbol) = first_out_of_place(system, args) {
        return Err(SubtermFault::BadArgument { symbol });
    }
    if is_bad_drop(set, drop) {
        return Err(SubtermFault::BadDrop);
    }
    match first_not_decreasing(pairs, set, args, drop) {
        Some(pair) => Err(SubtermFault::NotDecreasing { pair }),
        None => Ok(()),
    }
}
