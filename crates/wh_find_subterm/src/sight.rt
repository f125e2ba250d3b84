//! A pair as its sides are compared: by numbers where they were numbered, and else as trees.

ghost use Rattle.std.specs.Prelude.{◌≡◌, ◌↔◌, ◌<◌, IfSome, IsTrue, Some, length, map, slice_get};
ghost use Rattle.wh_pairs.specs.PairData.{IsIncreasing, pair_data};
ghost use Rattle.wh_subterm.specs.Projections.{Below};
ghost use Rattle.wh_subterm.specs.Relations.{Relates};
ghost use Rattle.wh_subterm.specs.SubtermRows.{chosen, chosen_symbols};
ghost use Rattle.wh_intern_pairs.specs.Numberings.{IsNumbering};
ghost use Rattle.wh_find_subterm.specs.Sights.{IsSight};

use wh_intern::{Sides, Table};
use wh_intern_pairs::{Numbered, is_below_by_number, relation_by_number};
use wh_pairs::Pair;
use wh_subterm::{Choice, Relation, is_below, relation_at};

/// A pair, with the table and the numbers of its sides where these were numbered.
#[derive(Clone, Copy)]
pub struct Sight<'a> {
    pub pair: &'a Pair,
    pub numbers: Option<(&'a Table, &'a Sides)>,
}

/// The pair with that number.
pub fn sight_of<'a>(pairs: &'a [Pair], numbered: Option<&'a Numbered>, number: u32) -> Sight<'a>
    requires number { number < length pairs.now }
    requires numbered { IfSome numbered (λ n. IsNumbering n.now (map pair_data pairs.now)) }
    ensures pair { slice_get (map pair_data pairs.now) number ≡ Some (pair_data result.pair.now) }
    ensures sides { IsSight result }
{
    let pair = &pairs[number as usize];
    let Some(numbered) = numbered else {
        return Sight {
            pair,
            numbers: None,
        };
    };
    let sides = &numbered.sides.as_slice()[number as usize];
    Sight {
        pair,
        numbers: Some((&numbered.table, sides)),
    }
}

/// The relation of the arguments of the pair at two places, counted from 0.
pub fn relation_in<'a>(sight: &Sight<'a>, left: u32, right: u32) -> Relation
    requires { IsSight sight.now }
    ensures { Relates (pair_data sight.now.pair.now) left right result }
{
    match sight.numbers {
        Some((table, sides)) => relation_by_number(table, sides, left, right),
        None => relation_at(sight.pair, left, right),
    }
}

/// Whether the pair is below.
pub fn is_below_in<'a>(sight: &Sight<'a>, args: &[Choice]) -> bool
    requires sight { IsSight sight.now }
    requires args { IsIncreasing (chosen_symbols (map chosen args.now)) }
    ensures { IsTrue result ↔ Below (map chosen args.now) (pair_data sight.now.pair.now) }
{
    match sight.numbers {
        Some((table, sides)) => is_below_by_number(table, sides, args),
        None => is_below(sight.pair, args),
    }
}
