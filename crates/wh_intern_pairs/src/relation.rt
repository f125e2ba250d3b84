//! How the two sides of a numbered pair stand to one another under a choice of an argument for each.

ghost use Rattle.std.specs.Prelude.{◌≡◌, ◌<◌, All, List, MatchOption, None, Some, length, slice_get};
ghost use Rattle.wh_pairs.specs.PairData.{PairData};
ghost use Rattle.wh_subterm.specs.Relations.{IsRelation, Relates};
ghost use Rattle.wh_intern.specs.TableTrees.{trees};
ghost use Rattle.wh_intern.specs.Trees.{tree_at};
ghost use Rattle.wh_intern_pairs.specs.NumberedSides.{AreSidesOf};

use crate::parts::{has_part, is_same};
use wh_intern::{Sides, Table};
use wh_subterm::Relation;

/// The relation of the arguments of a numbered pair at two places, counted from 0: the answer of
/// `wh_subterm::relation_at` for the pair with those sides.
pub fn relation_by_number(table: &Table, sides: &Sides, left: u32, right: u32) -> Relation
    requires { (p : PairData) × AreSidesOf (trees table.now) sides.now p }
    ensures { (p : PairData) → AreSidesOf (trees table.now) sides.now p → Relates p left right result }
{
    let Some(left) = number_at(sides.left.as_slice(), left) else {
        return Relation::Neither;
    };
    let Some(right) = number_at(sides.right.as_slice(), right) else {
        return Relation::Neither;
    };
    compared(table, left, right)
}

// The number at a place.
fn number_at(numbers: &[u32], place: u32) -> Option<u32>
    ensures { MatchOption result (slice_get numbers.now place ≡ None) (λ n. slice_get numbers.now place ≡ Some n) }
{
    if (place as usize) < numbers.len() {
        Some(numbers[place as usize])
    } else {
        None
    }
}

// The relation of the trees of two numbers.
fn compared(table: &Table, left: u32, right: u32) -> Relation
    requires left { left < length (trees table.now) }
    requires right { right < length (trees table.now) }
    ensures { IsRelation (tree_at (trees table.now) left) (tree_at (trees table.now) right) result }
{
    if is_same(table, left, right) {
        return Relation::Equal;
    }
    if has_part(table, left, right) {
        return Relation::Below;
    }
    Relation::Neither
}
