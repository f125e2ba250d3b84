//! Rows of the search for a projection by numbers.

ghost use Rattle.std.specs.Prelude.{◌<◌, All, IfOk, length, map};
ghost use Rattle.wh_system.specs.SystemView.{system_data};
ghost use Rattle.wh_pairs.specs.PairData.{pair_data};
ghost use Rattle.wh_pairs.specs.SystemPairs.{HasPairs};

use crate::problem::{pairs_of, system_of};
use std::alloc::{AllocError, Global};
use std::test::Fail;
use wh_find_subterm::find_projection_by;
use wh_intern_pairs::number_if_shared;
use wh_pairs::{Pair, PairList, PairSet};
use wh_sat::Search;
use wh_system::System;
use wh_types::counted;

/// One rule with two calls: of the three arguments the last one alone gets smaller in both.
const TWO_CALLS: &[u8] =
    b"sort o;fun s:o->o;fun c:o->o->o;fun f:o->o->o->o;rule {X:o,Y:o,Z:o} f X (s Y) (s Z) => c (f X Y Z) (f (s X) (s Y) Z);";

/// Two rules with a call each.
const EVEN_ODD: &[u8] =
    b"sort nat;fun s:nat->nat;fun e:nat->nat;fun d:nat->nat;rule {X:nat} e (s X) => d X;rule {X:nat} d (s X) => e X;";

/// Whether the sides of the pairs were numbered, and how many pairs a projection drops that is found.
type Told = (bool, usize);

/// All pairs.
fn all_of(alloc: Global, pairs: &[Pair]) -> Result<PairSet, AllocError>
    ensures { IfOk result (λ set. All (λ n. n < length pairs.now) set) }
{
    let count = counted(pairs.len())?;
    let mut set = PairSet::new(alloc);
    for number in 0..count {
        set.push(number)?;
    }
    Ok(set)
}

/// What is told of all pairs of the system; want of memory stands for there being none.
fn told_of_pairs(alloc: Global, system: &System, list: &PairList) -> Result<Told, AllocError>
    requires { HasPairs (system_data system.now) (map pair_data list.now) }
{
    let set = all_of(alloc, list.as_slice())?;
    if set.as_slice().is_empty() {
        return Err(AllocError);
    }
    let mut numbered = None;
    number_if_shared(alloc, list, &set, &mut numbered)?;
    match find_projection_by(alloc, system, list, numbered.as_ref(), &set, 100)? {
        Search::Found(found) => Ok((numbered.is_some(), found.drop.as_slice().len())),
        Search::Nothing | Search::Spent(_) => Ok((numbered.is_some(), 0)),
    }
}

/// Tells what the search finds for the system that a text spells.
fn told_of(alloc: Global, text: &[u8]) -> Result<Told, AllocError> {
    let system = system_of(alloc, text)?;
    let list = pairs_of(alloc, &system)?;
    told_of_pairs(alloc, &system, &list)
}

#[test]
fn finds_projections_by_numbers(rt: HostRuntime) -> Result<(), Fail> {
    assert!(rt; told_of(rt.alloc(), TWO_CALLS)? == (true, 2));
    assert!(rt; told_of(rt.alloc(), EVEN_ODD)? == (false, 2));
    Ok(())
}
