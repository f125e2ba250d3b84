//! When numbered sides pay: where two pairs of a rule share its left side.

ghost use Rattle.std.specs.Prelude.{◌↔◌, ◌⊎◌, ◌<◌, All, IsSome, IsTrue, OnOk, length, map};
ghost use Rattle.wh_system.specs.Systems.{SystemData};
ghost use Rattle.wh_pairs.specs.PairData.{pair_data};
ghost use Rattle.wh_pairs.specs.SystemPairs.{HasPairs};
ghost use Rattle.wh_pairs.specs.Views.{pairs_data};
ghost use Rattle.wh_intern_pairs.specs.Numberings.{IsNumberingSoFar};
ghost use Rattle.wh_intern_pairs.specs.Sharing.{ShareARule};

use super::Numbered;
use std::alloc::{AllocError, Global};
use wh_pairs::{Pair, PairList, PairSet};

/// Numbers the sides of the pairs of a system where that pays for a look at the set and was not done before: where two
/// pairs that stand next to each other in the set are of one rule, whose left side is then numbered once for both.
pub fn number_if_shared(
    alloc: Global,
    pairs: &PairList,
    set: &PairSet,
    numbered: &mut Option<Numbered>,
) -> Result<(), AllocError>
    requires pairs { (d : SystemData) × HasPairs d (pairs_data pairs.now) }
    requires set { All (λ n. n < length pairs.now) set.now }
    requires numbered { IsNumberingSoFar numbered.old (pairs_data pairs.now) }
    ensures numbered { OnOk result (IsNumberingSoFar numbered.new (pairs_data pairs.now)) }
    ensures which { OnOk result (IsSome numbered.new ↔ (IsSome numbered.old ⊎ ShareARule (pairs_data pairs.now) set.now)) }
{
    if numbered.is_none() && share_a_rule(pairs.as_slice(), set.as_slice()) {
        Numbered::once(alloc, pairs, numbered)?;
    }
    Ok(())
}

// Whether two pairs that stand next to each other in the set are of one rule.
fn share_a_rule(pairs: &[Pair], set: &[u32]) -> bool
    requires { All (λ n. n < length pairs.now) set.now }
    ensures { IsTrue result ↔ ShareARule (map pair_data pairs.now) set.now }
{
    for place in 1..set.len() {
        if pairs[set[place - 1] as usize].rule == pairs[set[place] as usize].rule {
            return true;
        }
    }
    false
}
