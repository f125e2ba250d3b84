//! Whether the projected sides of a pair are equal, or the right one is below the left one.

ghost use Rattle.std.specs.Prelude.{◌≡◌, ◌↔◌, ◌<◌, ℕ, All, Contains, IsTrue, MatchOption, length, map};
ghost use Rattle.wh_pairs.specs.PairData.{IsIncreasing, PairData};
ghost use Rattle.wh_subterm.specs.Projections.{Below, Decreasing};
ghost use Rattle.wh_subterm.specs.SubtermRows.{IsDecreasing, IsNotDecreasing, chosen, chosen_symbols};
ghost use Rattle.wh_intern.specs.TableTrees.{trees};
ghost use Rattle.wh_intern_pairs.specs.Asking.{IsAnswered};
ghost use Rattle.wh_intern_pairs.specs.NumberedSides.{AreSidesOf};
ghost use Rattle.wh_intern_pairs.specs.SidesAsPairs.{AreNumbersIn, IsChosenNumber, as_pair};

use crate::asked::Asked;
use crate::marked::choice_for;
use crate::parts::{has_part_as_asked, is_same, nothing_asked};
use wh_intern::{Sides, Table};
use wh_pairs::is_increasing;
use wh_subterm::Choice;
use wh_types::{Numbers, is_in};

/// The least pair of the set that is neither equal nor below, or that is dropped and not below.
pub fn first_not_decreasing(
    table: &Table,
    sides: &[Sides],
    set: &[u32],
    args: &[Choice],
    drop: &[u32],
) -> Option<u32>
    requires sides { All (AreNumbersIn (trees table.now)) sides.now }
    requires set { All (λ n. n < length sides.now) set.now }
    requires increasing { IsIncreasing set.now }
    requires args { IsIncreasing (chosen_symbols (map chosen args.now)) }
    ensures { MatchOption result ((n : ℕ) → Contains set.now n
        → IsDecreasing (map (as_pair (trees table.now)) sides.now) (map chosen args.now) drop.now n)
        (λ n. Contains set.now n × IsNotDecreasing (map (as_pair (trees table.now)) sides.now) (map chosen args.now) drop.now n
        × ((m : ℕ) → m < n → Contains set.now m
        → IsNotDecreasing (map (as_pair (trees table.now)) sides.now) (map chosen args.now) drop.now m → ⊥)) }
{
    let rising = is_increasing(drop);
    let mut asked = nothing_asked();
    for number in set {
        let dropped = is_listed(drop, rising, *number);
        if !is_decreasing(table, &sides[*number as usize], args, dropped, &mut asked) {
            return Some(*number);
        }
    }
    None
}

/// Whether the pair with these sides is below: the answer of `wh_subterm::is_below`.
pub fn is_below_by_number(table: &Table, sides: &Sides, args: &[Choice]) -> bool
    requires sides { (p : PairData) × AreSidesOf (trees table.now) sides.now p }
    requires args { IsIncreasing (chosen_symbols (map chosen args.now)) }
    ensures { (p : PairData) → AreSidesOf (trees table.now) sides.now p → IsTrue result ↔ Below (map chosen args.now) p }
{
    let mut asked = nothing_asked();
    is_decreasing(table, sides, args, true, &mut asked)
}

// Whether the number is one of the list. That the list increases, as it mostly does, is said by `rising`.
fn is_listed(list: &[u32], rising: bool, number: u32) -> bool
    requires { IsTrue rising → IsIncreasing list.now }
    ensures { IsTrue result ↔ Contains list.now number }
{
    if rising {
        list.binary_search(&number).is_ok()
    } else {
        is_in(list, number)
    }
}

// Whether the pair is below, or equal and not dropped.
fn is_decreasing(
    table: &Table,
    pair: &Sides,
    args: &[Choice],
    dropped: bool,
    asked: &mut Asked,
) -> bool
    requires pair { AreNumbersIn (trees table.now) pair.now }
    requires args { IsIncreasing (chosen_symbols (map chosen args.now)) }
    requires asked { IsAnswered (trees table.now) asked.old }
    ensures asked { IsAnswered (trees table.now) asked.new }
    ensures decreasing { IsTrue result ↔ Decreasing (map chosen args.now) dropped (as_pair (trees table.now) pair.now) }
{
    let Some(left) = projected(args, pair.left_fun, &pair.left) else {
        return false;
    };
    let Some(right) = projected(args, pair.right_fun, &pair.right) else {
        return false;
    };
    if has_part_as_asked(table, asked, left, right) {
        return true;
    }
    !dropped && is_same(table, left, right)
}

// The number that is chosen for the symbol.
fn projected(args: &[Choice], symbol: u32, numbers: &Numbers) -> Option<u32>
    requires { IsIncreasing (chosen_symbols (map chosen args.now)) }
    ensures { MatchOption result ((n : ℕ) → IsChosenNumber (map chosen args.now) symbol numbers.now n → ⊥)
        (IsChosenNumber (map chosen args.now) symbol numbers.now) }
{
    let argument = choice_for(args, symbol)?;
    let place = argument.checked_sub(1)? as usize;
    let items = numbers.as_slice();
    if place < items.len() {
        Some(items[place])
    } else {
        None
    }
}
