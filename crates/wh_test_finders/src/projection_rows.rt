//! Rows of the test of projections by numbers.

ghost use Rattle.std.specs.Prelude.{◌<◌, All, IfOk, List, length, map};
ghost use Rattle.wh_system.specs.SystemView.{system_data};
ghost use Rattle.wh_pairs.specs.PairData.{PairData, pair_data};
ghost use Rattle.wh_pairs.specs.SystemPairs.{HasPairs};
ghost use Rattle.wh_intern.specs.TableTrees.{trees};
ghost use Rattle.wh_intern_pairs.specs.NumberedSides.{AreSides};

use crate::problem::{pairs_of, system_of};
use std::alloc::{AllocError, Global};
use std::test::Fail;
use wh_intern::{Sides, Table};
use wh_intern_pairs::{check_numbered, number_pairs};
use wh_pairs::{PairList, PairSet};
use wh_subterm::{Choice, Projection, SubtermFault};
use wh_system::System;
use wh_test_samples::MAP;
use wh_types::counted;

/// What is wrong with a projection, and with which pair. The word is empty where nothing is.
type Told = (&'static str, u32);

/// What is wrong with the projection.
fn told(answer: Result<(), SubtermFault>) -> Told {
    match answer {
        Ok(()) => ("", 0),
        Err(SubtermFault::NotDecreasing { pair }) => ("not decreasing", pair),
        Err(_) => ("other", 0),
    }
}

/// All pairs that have entries.
fn all_of(alloc: Global, sides: &[Sides]) -> Result<PairSet, AllocError>
    ensures { IfOk result (λ set. All (λ n. n < length sides.now) set) }
{
    let count = counted(sides.len())?;
    let mut set = PairSet::new(alloc);
    for number in 0..count {
        set.push(number)?;
    }
    Ok(set)
}

/// What is wrong with the projection that has this choice alone, where pair 0 is to be dropped from all pairs.
fn told_of_choice(
    alloc: Global,
    system: &System,
    table: &Table,
    sides: &[Sides],
    choice: Choice,
) -> Result<Told, AllocError>
    requires { (ps : List PairData) × AreSides (trees table.now) sides.now ps }
{
    let set = all_of(alloc, sides)?;
    let mut args = Projection::new(alloc);
    args.push(choice)?;
    Ok(told(check_numbered(system, table, sides, &set, &args, &[0])))
}

/// Checks the choice over the pairs of the system, which are numbered first, and tells what the check says.
fn told_of_pairs(
    alloc: Global,
    system: &System,
    list: &PairList,
    choice: Choice,
) -> Result<Told, AllocError>
    requires { HasPairs (system_data system.now) (map pair_data list.now) }
{
    let mut table = Table::new(alloc);
    let sides = number_pairs(alloc, list, &mut table)?;
    told_of_choice(alloc, system, &table, sides.as_slice(), choice)
}

/// Checks a choice of an argument of `map` over the system of `map`, and tells what the check says.
fn told_of_map(alloc: Global, argument: u32) -> Result<Told, AllocError> {
    let system = system_of(alloc, MAP)?;
    let list = pairs_of(alloc, &system)?;
    let choice = Choice {
        symbol: 4,
        argument,
    };
    told_of_pairs(alloc, &system, &list, choice)
}

#[test]
fn tests_projections_by_numbers(rt: HostRuntime) -> Result<(), Fail> {
    assert!(rt; told_of_map(rt.alloc(), 2)? == ("", 0));
    assert!(rt; told_of_map(rt.alloc(), 1)? == ("not decreasing", 0));
    Ok(())
}
