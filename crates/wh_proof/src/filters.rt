//! What the lines `fun` and `mark` of a node of a path order say: argument filters of all symbols, and of the marked
//! symbols of a set. The names in them are compared in order, and the filters copied. Such lines are also made here.

ghost use Rattle.std.specs.Prelude.{◌≡◌, ◌<◌, All, IfOk, List, MatchOption, Some, length, map, slice_get};
ghost use Rattle.wh_pairs.specs.Marked.{AreMarked};
ghost use Rattle.wh_pairs.specs.Views.{pairs_data};
ghost use Rattle.wh_system.specs.SystemView.{system_data};
ghost use Rattle.wh_order_inference.specs.FilterText.{WrittenFilter};
ghost use Rattle.wh_order_inference.specs.Said.{written_filter};
ghost use Rattle.wh_cert.specs.Said.{said_filter};
ghost use Rattle.wh_order_node.specs.FilteringView.{filtering_data, mark_filter};
ghost use Rattle.wh_order_node.specs.Filterings.{FilteringData, MarkFilter as filter_of_mark};
ghost use Rattle.wh_proof.specs.Looked.{SayFilterings, SayFilters, SayMarkFilters};

use crate::named::{name_all, name_these};
use std::alloc::{AllocError, Global};
use wh_cert::{Filter, NamedFilter, NamedFilters};
use wh_order_node::{FilterList, Filters, MarkFilter, MarkFilterList};
use wh_pairs::{PairList, PairSet, marked_symbols};
use wh_system::System;
use wh_text::Name;
use wh_types::Numbers;

/// The filters of all symbols and of the marked symbols of the set that the lines `fun` and `mark` say; `None` where
/// they say none.
pub fn filters_of_lines(
    alloc: Global,
    system: &System,
    pairs: &PairList,
    set: &PairSet,
    funs: &[NamedFilter],
    marks: &[NamedFilter],
) -> Result<Option<Filters>, AllocError>
    requires { All (λ n. n < length pairs.now) set.now }
    ensures { IfOk result (λ found. MatchOption found
        ((D : FilteringData) → SayFilterings (system_data system.now) (map said_filter funs.now) (map said_filter marks.now) D
        → AreMarked (pairs_data pairs.now) set.now (map (λ m. m.symbol) D.marks) → ⊥)
        (λ made. SayFilterings (system_data system.now) (map said_filter funs.now) (map said_filter marks.now) (filtering_data made)
        × AreMarked (pairs_data pairs.now) set.now (map (λ m. m.symbol) (filtering_data made).marks))) }
{
    let Some(funs) = filters_of_symbols(alloc, system, funs)? else {
        return Ok(None);
    };
    let Some(marks) = filters_of_set(alloc, system, pairs, set, marks)? else {
        return Ok(None);
    };
    Ok(Some(Filters { funs, marks }))
}

// The filters of all symbols that the lines say; `None` where they say none.
fn filters_of_symbols(
    alloc: Global,
    system: &System,
    lines: &[NamedFilter],
) -> Result<Option<FilterList>, AllocError>
    ensures { IfOk result (λ found. MatchOption found
        ((filters : List WrittenFilter) → SayFilters (system_data system.now).fun_names (map said_filter lines.now) filters → ⊥)
        (λ made. SayFilters (system_data system.now).fun_names (map said_filter lines.now) (map written_filter made))) }
{
    if !name_all(system.fun_names(), lines) {
        return Ok(None);
    }
    Ok(Some(read_filters(alloc, lines)?))
}

// The filters of the marked symbols of the set that the lines say; `None` where they say none.
fn filters_of_set(
    alloc: Global,
    system: &System,
    pairs: &PairList,
    set: &PairSet,
    lines: &[NamedFilter],
) -> Result<Option<MarkFilterList>, AllocError>
    requires { All (λ n. n < length pairs.now) set.now }
    ensures { IfOk result (λ found. MatchOption found
        ((marks : List filter_of_mark) → SayMarkFilters (system_data system.now) (map said_filter lines.now) marks
        → AreMarked (pairs_data pairs.now) set.now (map (λ m. m.symbol) marks) → ⊥)
        (λ made. SayMarkFilters (system_data system.now) (map said_filter lines.now) (map mark_filter made)
        × AreMarked (pairs_data pairs.now) set.now (map (λ m. m.symbol) (map mark_filter made)))) }
{
    let numbers = marked_symbols(alloc, pairs, set)?;
    if !name_these(system.fun_names(), &numbers, lines) {
        return Ok(None);
    }
    Ok(Some(read_mark_filters(alloc, &numbers, lines)?))
}

// The filters that stand in the lines.
fn read_filters(alloc: Global, lines: &[NamedFilter]) -> Result<FilterList, AllocError>
    ensures { IfOk result (λ made. map written_filter made ≡ map (λ line. written_filter line.filter) lines.now) }
{
    let mut filters = FilterList::new(alloc);
    for line in lines {
        filters.push(copy_filter(alloc, &line.filter)?)?;
    }
    Ok(filters)
}

// Filters of the marked symbols with these numbers, as they stand in the lines.
fn read_mark_filters(
    alloc: Global,
    numbers: &[u32],
    lines: &[NamedFilter],
) -> Result<MarkFilterList, AllocError>
    requires { length lines.now ≡ length numbers.now }
    ensures symbols { IfOk result (λ made. map (λ m. m.symbol) made ≡ numbers.now) }
    ensures filters { IfOk result (λ made. map (λ m. written_filter m.filter) made ≡ map (λ line. written_filter line.filter) lines.now) }
{
    let mut marks = MarkFilterList::new(alloc);
    for i in 0..lines.len() {
        marks.push(MarkFilter {
            symbol: numbers[i],
            filter: copy_filter(alloc, &lines[i].filter)?,
        })?;
    }
    Ok(marks)
}

/// The lines `fun` of the filters of all symbols.
pub fn lines_of_filters(
    alloc: Global,
    names: &[Name],
    filters: &[Filter],
) -> Result<NamedFilters, AllocError>
    requires { length names.now ≡ length filters.now }
    ensures names { IfOk result (λ lines. map (λ l. l.name) lines ≡ names.now) }
    ensures filters { IfOk result (λ lines. map (λ l. written_filter l.filter) lines ≡ map written_filter filters.now) }
{
    let mut lines = NamedFilters::new(alloc);
    for i in 0..filters.len() {
        let name = Name::new(alloc, names[i].bytes())?;
        let filter = copy_filter(alloc, &filters[i])?;
        lines.push(NamedFilter { name, filter })?;
    }
    Ok(lines)
}

/// The lines `mark` of the filters of marked symbols. A symbol without a name counts as want of memory, as in
/// `lines_of_marks`.
pub fn lines_of_mark_filters(
    alloc: Global,
    names: &[Name],
    marks: &[MarkFilter],
) -> Result<NamedFilters, AllocError>
    ensures names { IfOk result (λ lines. map (λ m. slice_get names.now m.symbol) marks.now ≡ map (λ l. Some l.name) lines) }
    ensures filters { IfOk result (λ lines. map (λ m. written_filter m.filter) marks.now ≡ map (λ l. written_filter l.filter) lines) }
{
    let mut lines = NamedFilters::new(alloc);
    for mark in marks {
        if mark.symbol as usize >= names.len() {
            return Err(AllocError);
        }
        let name = Name::new(alloc, names[mark.symbol as usize].bytes())?;
        let filter = copy_filter(alloc, &mark.filter)?;
        lines.push(NamedFilter { name, filter })?;
    }
    Ok(lines)
}

// A filter of its own that is equal to this one.
fn copy_filter(alloc: Global, filter: &Filter) -> Result<Filter, AllocError>
    ensures { IfOk result (λ made. written_filter made ≡ written_filter filter.now) }
{
    match filter {
        Filter::Keep { prec, places } => {
            let places = copied(alloc, places.as_slice())?;
            Ok(Filter::Keep {
                prec: *prec,
                places,
            })
        }
        Filter::Pick { place } => Ok(Filter::Pick { place: *place }),
    }
}

// A list of its own with these numbers.
fn copied(alloc: Global, list: &[u32]) -> Result<Numbers, AllocError>
    ensures { IfOk result (λ numbers. numbers ≡ list.now) }
{
    let mut numbers = Numbers::new(alloc);
    for number in list {
        numbers.push(*number)?;
    }
    Ok(numbers)
}
