//! The sides of rules and of pairs, with all their arguments and behind the filters.

ghost use Rattle.std.specs.Prelude.{◌≡◌, ◌<◌, Some, length, slice_get};
ghost use Rattle.wh_types.specs.Limits.{greatest_size};
ghost use Rattle.wh_types.specs.Outcome.{MatchOr};
ghost use Rattle.wh_terms.specs.Measures.{size};
ghost use Rattle.wh_terms.specs.Rules.{RewriteRule};
ghost use Rattle.wh_system.specs.CanonicalView.{side_of};
ghost use Rattle.wh_system.specs.SystemView.{system_data};
ghost use Rattle.wh_pairs.specs.PairData.{pair_data};
ghost use Rattle.wh_polycheck.specs.Marks.{head_of_side};
ghost use Rattle.wh_order_extended.specs.ExtendedSides.{extended_side};
ghost use Rattle.wh_order_node.specs.FilteringView.{filtering_data};
ghost use Rattle.wh_order_node.specs.Ordering.{IsNarrow};
ghost use Rattle.wh_order.specs.TreeSides.{AreFilters, HasTypedCalls, IsTreeOfCall, IsTreeOfSide, extended_pair_side};

use crate::kept::filtered_mark;
use crate::sift::{sift, sift_list};
use std::alloc::Global;
use wh_order_node::Filters;
use wh_order_sides::{TooWide, extended_arguments, extended_rule};
use wh_order_trees::Tree;
use wh_pairs::Pair;
use wh_system::System;
use wh_types::Or;

/// The right side of a rule, or its left side, with all its arguments and behind the filters (Kop 2012).
///
/// `Err` comes exactly where the side with all its arguments has more than 65,536 nodes.
pub fn filtered_rule(
    alloc: Global,
    system: &System,
    filters: &Filters,
    rule: u32,
    right: bool,
) -> Result<Tree, Or<TooWide>>
    requires filters { AreFilters (system_data system.now).symbols (system_data system.now).rules (filtering_data filters.now) }
    requires rule { rule < length (system_data system.now).rules }
    ensures { (r : RewriteRule) → slice_get (system_data system.now).rules rule ≡ Some r → MatchOr result
        (λ u. IsNarrow (extended_side (system_data system.now).symbols r (side_of right r))
        × IsTreeOfSide (system_data system.now).symbols (system_data system.now).rules (filtering_data filters.now) r right u)
        (λ _. greatest_size < size (extended_side (system_data system.now).symbols r (side_of right r))) }
{
    system.is_well_made();
    let side = extended_rule(alloc, system, rule, right)?;
    Ok(sift(alloc, filters, side.metas.as_slice(), &side.term)?)
}

/// The right side of a pair, or its left side, with all arguments and behind the filters (Kop 2012).
///
/// `Err` comes exactly where the marked symbol with all arguments has more than 65,536 nodes.
pub fn filtered_pair(
    alloc: Global,
    system: &System,
    filters: &Filters,
    pair: &Pair,
    right: bool,
) -> Result<Tree, Or<TooWide>>
    requires filters { AreFilters (system_data system.now).symbols (system_data system.now).rules (filtering_data filters.now) }
    requires typed { HasTypedCalls (system_data system.now).symbols (system_data system.now).rules (pair_data pair.now) }
    ensures { MatchOr result
        (λ u. IsNarrow (extended_pair_side (system_data system.now).symbols (pair_data pair.now) right)
        × IsTreeOfCall (system_data system.now).symbols (system_data system.now).rules (filtering_data filters.now)
        (pair_data pair.now) right u)
        (λ _. greatest_size < size (extended_pair_side (system_data system.now).symbols (pair_data pair.now) right)) }
{
    let items = extended_arguments(alloc, system, pair, right)?;
    let behind = sift_list(alloc, filters, pair.metas.as_slice(), items.as_slice())?;
    Ok(filtered_mark(alloc, filters, head_of_side(pair, right), behind)?)
}

// The symbol whose mark heads the right side of a pair, or its left side.
fn head_of_side(pair: &Pair, right: bool) -> u32
    ensures { result ≡ head_of_side (pair_data pair.now) right }
{
    if right { pair.right_fun } else { pair.left_fun }
}
