//! Whether the projected sides of a pair are equal, or the right one is below the left one.

ghost use Rattle.std.specs.Prelude.{◌≡◌, ◌↔◌, ◌<◌, ℕ, All, Contains, IsTrue, MatchOption, MatchResult, length, map};
ghost use Rattle.wh_terms.specs.Tree.{Tm};
ghost use Rattle.wh_terms.specs.Erase.{tm};
ghost use Rattle.wh_pairs.specs.PairData.{IsIncreasing, pair_data};
ghost use Rattle.wh_subterm.specs.Projections.{Below, Decreasing, IsProjected};
ghost use Rattle.wh_subterm.specs.SubtermRows.{IsDecreasing, IsNotDecreasing, chosen, chosen_symbols};

use crate::marked::choice_for;
use crate::parts::has_part;
use crate::projection::Choice;
use wh_pairs::Pair;
use wh_terms::{Term, Terms, same};
use wh_types::is_in;

/// The least pair of the set that is neither equal nor below, or that is dropped and not below.
pub fn first_not_decreasing(
    pairs: &[Pair],
    set: &[u32],
    args: &[Choice],
    drop: &[u32],
) -> Option<u32>
    requires set { All (λ n. n < length pairs.now) set.now }
    requires increasing { IsIncreasing set.now }
    requires args { IsIncreasing (chosen_symbols (map chosen args.now)) }
    ensures { MatchOption result ((n : ℕ) → Contains set.now n → IsDecreasing (map pair_data pairs.now) (map chosen args.now) drop.now n)
        (λ n. Contains set.now n × IsNotDecreasing (map pair_data pairs.now) (map chosen args.now) drop.now n
        × ((m : ℕ) → m < n → Contains set.now m → IsNotDecreasing (map pair_data pairs.now) (map chosen args.now) drop.now m → ⊥)) }
{
    for number in set {
        if !is_decreasing(&pairs[*number as usize], args, is_in(drop, *number)) {
            return Some(*number);
        }
    }
    None
}

/// Whether the pair is below.
pub fn is_below(pair: &Pair, args: &[Choice]) -> bool
    requires { IsIncreasing (chosen_symbols (map chosen args.now)) }
    ensures { IsTrue result ↔ Below (map chosen args.now) (pair_data pair.now) }
{
    is_decreasing(pair, args, true)
}

// Whether the pair is below, or equal and not dropped.
fn is_decreasing(pair: &Pair, args: &[Choice], dropped: bool) -> bool
    requires { IsIncreasing (chosen_symbols (map chosen args.now)) }
    ensures { IsTrue result ↔ Decreasing (map chosen args.now) dropped (pair_data pair.now) }
{
    let Some(left) = projected(args, pair.left_fun, &pair.left) else {
        return false;
    };
    let Some(right) = projected(args, pair.right_fun, &pair.right) else {
        return false;
    };
    has_part(left, right) || (!dropped && same(left, right))
}

// The argument that is chosen for the symbol.
fn projected<'a>(args: &[Choice], symbol: u32, terms: &'a Terms) -> Option<&'a Term>
    requires { IsIncreasing (chosen_symbols (map chosen args.now)) }
    ensures { MatchOption result ((t : Tm) → IsProjected (map chosen args.now) symbol (map tm terms.now) t → ⊥)
        (λ r. IsProjected (map chosen args.now) symbol (map tm terms.now) (tm r.now)) }
{
    let argument = choice_for(args, symbol)?;
    let place = argument.checked_sub(1)? as usize;
    let items = terms.as_slice();
    if place < items.len() {
        Some(&items[place])
    } else {
        None
    }
}
