//! Finding the line of a single rule or pair under a given order.

ghost use Rattle.std.specs.Prelude.{◌≡◌, ◌<◌, IfOk, MatchOption, None, Some, length, slice_get};
ghost use Rattle.wh_terms.specs.Rules.{RewriteRule};
ghost use Rattle.wh_system.specs.CanonicalView.{side_of};
ghost use Rattle.wh_system.specs.SystemView.{system_data};
ghost use Rattle.wh_pairs.specs.PairData.{pair_data};
ghost use Rattle.wh_order_extended.specs.ExtendedSides.{extended_side};
ghost use Rattle.wh_order_path.specs.Verdict.{greater};
ghost use Rattle.wh_order_node.specs.FilteringView.{filtering_data};
ghost use Rattle.wh_order_node.specs.Ordering.{IsNarrow};
ghost use Rattle.wh_order.specs.TreeSides.{AreFilters, HasTypedCalls, IsTreeOfCall, IsTreeOfSide, extended_pair_side};
ghost use Rattle.wh_order_infer.specs.Lines.{IsFound};
ghost use Rattle.wh_order_lines.specs.OrderLines.{IsAnyPairLineOrNone, IsLineBetween, IsPairLineOrNone, IsRuleLineOrNone};

use std::alloc::{AllocError, Global};
use wh_order::{filtered_pair, filtered_rule};
use wh_order_infer::{find_greater, find_inference};
use wh_order_inference::Inference;
use wh_order_node::Filters;
use wh_order_trees::Tree;
use wh_pairs::Pair;
use wh_system::System;
use wh_types::Or;

/// The inference of a pair, and whether it shows that its left side is greater.
#[derive(Drop)]
pub struct PairLine {
    /// The inference.
    pub inference: Inference,
    /// Whether the inference is another one than that of equal trees.
    pub strict: bool,
}

/// An inference that orients the rule; `None` where there is none, or a side is too wide.
pub fn rule_line(
    alloc: Global,
    system: &System,
    filters: &Filters,
    rule: u32,
) -> Result<Option<Inference>, AllocError>
    requires filters { AreFilters (system_data system.now).symbols (system_data system.now).rules (filtering_data filters.now) }
    requires rule { rule < length (system_data system.now).rules }
    ensures { (r : RewriteRule) → slice_get (system_data system.now).rules rule ≡ Some r
        → IfOk result (IsRuleLineOrNone (system_data system.now).symbols (system_data system.now).rules (filtering_data filters.now) r) }
{
    let Some(left) = rule_side(alloc, system, filters, rule, false)? else {
        return Ok(None);
    };
    let Some(right) = rule_side(alloc, system, filters, rule, true)? else {
        return Ok(None);
    };
    find_inference(alloc, filters, &left, &right)
}

// A filtered side of the rule; `None` where it is too wide.
fn rule_side(
    alloc: Global,
    system: &System,
    filters: &Filters,
    rule: u32,
    right: bool,
) -> Result<Option<Tree>, AllocError>
    requires filters { AreFilters (system_data system.now).symbols (system_data system.now).rules (filtering_data filters.now) }
    requires rule { rule < length (system_data system.now).rules }
    ensures { (r : RewriteRule) → slice_get (system_data system.now).rules rule ≡ Some r → IfOk result (λ found. MatchOption found
        (IsNarrow (extended_side (system_data system.now).symbols r (side_of right r)) → ⊥)
        (λ u. IsNarrow (extended_side (system_data system.now).symbols r (side_of right r))
        × IsTreeOfSide (system_data system.now).symbols (system_data system.now).rules (filtering_data filters.now) r right u)) }
{
    match filtered_rule(alloc, system, filters, rule, right) {
        Ok(side) => Ok(Some(side)),
        Err(Or::NoMemory) => Err(AllocError),
        Err(Or::Because(_)) => Ok(None),
    }
}

/// An inference that orients the pair: where there are several, one that is not that of equal trees. `None` where there
/// is none, or a side is too wide.
pub fn pair_line(
    alloc: Global,
    system: &System,
    filters: &Filters,
    pair: &Pair,
) -> Result<Option<PairLine>, AllocError>
    requires filters { AreFilters (system_data system.now).symbols (system_data system.now).rules (filtering_data filters.now) }
    requires typed { HasTypedCalls (system_data system.now).symbols (system_data system.now).rules (pair_data pair.now) }
    ensures { IfOk result (IsPairLineOrNone (system_data system.now).symbols (system_data system.now).rules (filtering_data filters.now)
        (pair_data pair.now)) }
{
    let Some(left) = pair_side(alloc, system, filters, pair, false)? else {
        return Ok(None);
    };
    let Some(right) = pair_side(alloc, system, filters, pair, true)? else {
        return Ok(None);
    };
    line_between(alloc, filters, &left, &right)
}

/// An inference that orients the pair, whichever is found first. `None` where there is none, or a side is too wide. It
/// takes one search, where `pair_line` may take two.
pub fn any_pair_line(
    alloc: Global,
    system: &System,
    filters: &Filters,
    pair: &Pair,
) -> Result<Option<Inference>, AllocError>
    requires filters { AreFilters (system_data system.now).symbols (system_data system.now).rules (filtering_data filters.now) }
    requires typed { HasTypedCalls (system_data system.now).symbols (system_data system.now).rules (pair_data pair.now) }
    ensures { IfOk result (IsAnyPairLineOrNone (system_data system.now).symbols (system_data system.now).rules (filtering_data filters.now)
        (pair_data pair.now)) }
{
    let Some(left) = pair_side(alloc, system, filters, pair, false)? else {
        return Ok(None);
    };
    let Some(right) = pair_side(alloc, system, filters, pair, true)? else {
        return Ok(None);
    };
    find_inference(alloc, filters, &left, &right)
}

// The line of two filtered sides.
fn line_between(
    alloc: Global,
    filters: &Filters,
    left: &Tree,
    right: &Tree,
) -> Result<Option<PairLine>, AllocError>
    ensures { IfOk result (IsLineBetween (filtering_data filters.now) left.now right.now) }
{
    match find_greater(alloc, filters, left, right)? {
        Some(inference) => Ok(Some(PairLine {
            inference,
            strict: true,
        })),
        None => weak_line(alloc, filters, left, right),
    }
}

// A line by which the left side is at least the right one, where it is not greater.
fn weak_line(
    alloc: Global,
    filters: &Filters,
    left: &Tree,
    right: &Tree,
) -> Result<Option<PairLine>, AllocError>
    requires { IsFound (filtering_data filters.now) greater left.now right.now None }
    ensures { IfOk result (IsLineBetween (filtering_data filters.now) left.now right.now) }
{
    match find_inference(alloc, filters, left, right)? {
        Some(inference) => Ok(Some(PairLine {
            inference,
            strict: false,
        })),
        None => Ok(None),
    }
}

// A filtered side of the pair; `None` where it is too wide.
fn pair_side(
    alloc: Global,
    system: &System,
    filters: &Filters,
    pair: &Pair,
    right: bool,
) -> Result<Option<Tree>, AllocError>
    requires filters { AreFilters (system_data system.now).symbols (system_data system.now).rules (filtering_data filters.now) }
    requires typed { HasTypedCalls (system_data system.now).symbols (system_data system.now).rules (pair_data pair.now) }
    ensures { IfOk result (λ found. MatchOption found
        (IsNarrow (extended_pair_side (system_data system.now).symbols (pair_data pair.now) right) → ⊥)
        (λ u. IsNarrow (extended_pair_side (system_data system.now).symbols (pair_data pair.now) right)
        × IsTreeOfCall (system_data system.now).symbols (system_data system.now).rules (filtering_data filters.now)
        (pair_data pair.now) right u)) }
{
    match filtered_pair(alloc, system, filters, pair, right) {
        Ok(side) => Ok(Some(side)),
        Err(Or::NoMemory) => Err(AllocError),
        Err(Or::Because(_)) => Ok(None),
    }
}
