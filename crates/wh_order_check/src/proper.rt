//! The test that the filters of symbols and of marked symbols are proper.

ghost use Rattle.std.specs.Prelude.{◌≡◌, ◌↔◌, ◌<◌, ◌-◌, ◌^◌, ℕ, All, IfOk, IsTrue, MatchOption, length, map};
ghost use Rattle.wh_types.specs.Erase.{ty};
ghost use Rattle.wh_types.specs.Ty.{arguments};
ghost use Rattle.wh_system.specs.SystemView.{system_data};
ghost use Rattle.wh_order_inference.specs.Said.{written_filter};
ghost use Rattle.wh_order_extended.specs.Filtered.{IncreasingFrom};
ghost use Rattle.wh_order_node.specs.FilteringView.{filtering_data};
ghost use Rattle.wh_order_node.specs.Filterings.{AreProperMarks, AreProperSymbols, IsProperAsWritten};
ghost use Rattle.wh_order_check.specs.OrderingFaults.{IsFirstImproper, IsFirstImproperMark};

use std::alloc::{AllocError, Global};
use wh_order_inference::Filter;
use wh_order_node::Filters;
use wh_polycheck::kind_of_mark;
use wh_system::System;
use wh_types::SimpleType;

/// The number of the first symbol whose filter is not proper.
pub fn first_improper(system: &System, filters: &Filters) -> Option<u32>
    requires { length filters.now.funs ≡ length (system_data system.now).symbols.funs }
    ensures { MatchOption result (AreProperSymbols (system_data system.now).symbols (filtering_data filters.now))
        (IsFirstImproper (system_data system.now).symbols (filtering_data filters.now)) }
{
    system.is_well_made();
    let kinds = system.signature().funs.as_slice();
    for (i, filter) in filters.funs.as_slice().iter().enumerate() {
        if !is_proper(&kinds[i], filter) {
            return Some(i as u32);
        }
    }
    None
}

/// The first symbol whose mark has a filter that is not proper for the arguments which the symbol's rules need.
pub fn first_improper_mark(
    alloc: Global,
    system: &System,
    filters: &Filters,
) -> Result<Option<u32>, AllocError>
    ensures { IfOk result (λ found. MatchOption found (AreProperMarks (system_data system.now).symbols (system_data system.now).rules
        (filtering_data filters.now)) (IsFirstImproperMark (system_data system.now).symbols (system_data system.now).rules
        (filtering_data filters.now))) }
{
    system.is_well_made();
    for mark in filters.marks.as_slice() {
        let kind = kind_of_mark(alloc, system, mark.symbol)?;
        if !is_proper(&kind, &mark.filter) {
            return Ok(Some(mark.symbol));
        }
    }
    Ok(None)
}

// Whether the filter is proper for a symbol of the type.
fn is_proper(kind: &SimpleType, filter: &Filter) -> bool
    requires { length (arguments (ty kind.now)) < 2 ^ 32 }
    ensures { IsTrue result ↔ IsProperAsWritten (arguments (ty kind.now)) (written_filter filter.now) }
{
    match filter {
        Filter::Keep { places, .. } => are_increasing(places.as_slice(), kind.arity()),
        Filter::Pick { place } => {
            0 < *place
                && *place <= kind.arity()
                && matches!(kind.argument(*place - 1), SimpleType::Sort(_))
        }
    }
}

// Whether the places, which are counted from 1, are strictly increasing and at most `arity`.
fn are_increasing(places: &[u32], arity: u32) -> bool
    ensures { IsTrue result ↔ (All (λ n. 0 < n) places.now × IncreasingFrom 0 arity (map (λ n. n - 1) places.now)) }
{
    let mut last = 0;
    for &place in places {
        if place <= last || arity < place {
            return false;
        }
        last = place;
    }
    true
}
