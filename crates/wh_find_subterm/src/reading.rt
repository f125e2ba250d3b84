//! Reading a model: the projection that it says, and the pairs that go by it.

ghost use Rattle.std.specs.Prelude.{◌≡◌, ◌+◌, ◌<◌, ◌≤◌, ◌^◌, ℕ, false, All, IfOk, IfSome, get_or, length, map};
ghost use Rattle.wh_pairs.specs.PairData.{IsIncreasing, pair_data};
ghost use Rattle.wh_intern_pairs.specs.Numberings.{IsNumbering};
ghost use Rattle.wh_subterm.specs.SubtermRows.{chosen, chosen_symbols};
ghost use Rattle.wh_find_subterm.specs.Reading.{IsBelowSet, chosen_by, first_true};

use crate::rows::Row;
use crate::sight::{is_below_in, sight_of};
use std::alloc::{AllocError, Global};
use wh_intern_pairs::Numbered;
use wh_pairs::{Pair, PairSet};
use wh_subterm::{Choice, Projection};

/// The choice, for each symbol, of the first argument whose variable is true.
pub fn choices_by(alloc: Global, values: &[bool], rows: &[Row]) -> Result<Projection, AllocError>
    requires few { length values.now < 2 ^ 32 }
    requires rows { All (λ r. r.first + r.need < length values.now) rows.now }
    ensures { IfOk result (λ args. map chosen args ≡ chosen_by (λ x. get_or values.now x false) rows.now) }
{
    let mut args = Projection::new(alloc);
    for row in rows {
        args.push(Choice {
            symbol: row.symbol,
            argument: first_true(values, row.first, row.need) + 1,
        })?;
    }
    Ok(args)
}

// The first of `count` variables from `first` on that is true, counted from 0; `count` where none is.
fn first_true(values: &[bool], first: u32, count: u32) -> u32
    requires few { length values.now < 2 ^ 32 }
    requires within { first + count ≤ length values.now }
    ensures is { result ≡ first_true (λ x. get_or values.now x false) first count }
    ensures most { result ≤ count }
{
    for place in 0..count {
        if values[(first + place) as usize] {
            return place;
        }
    }
    count
}

/// The pairs of the set that are below.
pub fn below_under(
    alloc: Global,
    pairs: &[Pair],
    numbered: Option<&Numbered>,
    set: &[u32],
    args: &[Choice],
) -> Result<PairSet, AllocError>
    requires set { All (λ n. n < length pairs.now) set.now }
    requires numbered { IfSome numbered (λ n. IsNumbering n.now (map pair_data pairs.now)) }
    requires increasing { IsIncreasing set.now }
    requires args { IsIncreasing (chosen_symbols (map chosen args.now)) }
    ensures { IfOk result (IsBelowSet (map pair_data pairs.now) set.now (map chosen args.now) (length set.now)) }
{
    let mut drop = PairSet::new(alloc);
    for number in set {
        if is_below_in(&sight_of(pairs, numbered, *number), args) {
            drop.push(*number)?;
        }
    }
    Ok(drop)
}
