//! How the two sides of a pair stand to one another under a choice of an argument for each.

ghost use Rattle.std.specs.Prelude.{◌≡◌, MatchOption, None, Some, map, slice_get};
ghost use Rattle.wh_terms.specs.Erase.{tm};
ghost use Rattle.wh_pairs.specs.PairData.{pair_data};
ghost use Rattle.wh_subterm.specs.Relations.{IsRelation, Relates};

use crate::parts::has_part;
use wh_pairs::Pair;
use wh_terms::{Term, Terms, same};

/// The relation of the chosen arguments of a pair.
#[derive(Clone, Copy)]
pub enum Relation {
    /// The two arguments are the same tree.
    Equal,
    /// The right one is a proper part of the left one, reached through arguments of spines that symbols head.
    Below,
    /// Neither, or there are no such arguments.
    Neither,
}

/// The relation of the arguments of a pair at two places, counted from 0.
pub fn relation_at(pair: &Pair, left: u32, right: u32) -> Relation
    ensures { Relates (pair_data pair.now) left right result }
{
    let Some(left) = argument(&pair.left, left) else {
        return Relation::Neither;
    };
    let Some(right) = argument(&pair.right, right) else {
        return Relation::Neither;
    };
    compared(left, right)
}

// The term at a place.
fn argument(terms: &Terms, place: u32) -> Option<&Term>
    ensures { MatchOption result (slice_get (map tm terms.now) place ≡ None) (λ r. slice_get (map tm terms.now) place ≡ Some (tm r.now)) }
{
    let items = terms.as_slice();
    if (place as usize) < items.len() {
        Some(&items[place as usize])
    } else {
        None
    }
}

// The relation of two terms.
fn compared(left: &Term, right: &Term) -> Relation
    ensures { IsRelation (tm left.now) (tm right.now) result }
{
    if same(left, right) {
        return Relation::Equal;
    }
    if has_part(left, right) {
        return Relation::Below;
    }
    Relation::Neither
}
