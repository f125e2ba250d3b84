//! Decoding: the order that bits write, or the first symbol for which they write no proper filter.

ghost use Rattle.std.specs.Prelude.{ℕ, ◌≡◌, ◌+◌, ◌<◌, ◌≤◌, IfOk, MatchOption, length, map};
ghost use Rattle.wh_types.specs.Outcome.{MatchOr};
ghost use Rattle.wh_order_inference.specs.FilterText.{WrittenFilter};
ghost use Rattle.wh_order_inference.specs.Said.{written_filter};
ghost use Rattle.wh_order_node.specs.FilteringView.{filtering_data};
ghost use Rattle.wh_poly_blocking.specs.Sizes.{value_of};
ghost use Rattle.wh_order_space.specs.Bits.{IsFilterBy, IsWritten};
ghost use Rattle.wh_find_order.specs.Encodings.{AreFiltersFrom, HasNoFilter, IsEncoding, symbols_in, task_in};

use crate::encoding::Encoding;
use crate::filters::{filter_by, number_by, picks_sort};
use std::alloc::{AllocError, Global};
use wh_order_inference::Filter;
use wh_order_node::{FilterList, Filters, MarkFilter, MarkFilterList};
use wh_types::Or;

/// The order that bits with these values write; the cause is the number of the first symbol for which they write no
/// proper filter, or too great a precedence.
pub fn order_by<'a>(
    alloc: Global,
    encoding: &Encoding<'a>,
    values: &[bool],
) -> Result<Filters, Or<usize>>
    requires { IsEncoding encoding.now }
    ensures { MatchOr result (λ filters. IsWritten (task_in encoding.now) encoding.now.marked.now
        (value_of values.now) (filtering_data filters))
        (HasNoFilter encoding.now (value_of values.now)) }
{
    let symbols = encoding.task.system.signature().funs.as_slice().len();
    let funs = symbol_filters(alloc, encoding, values, symbols)?;
    let marks = mark_filters(alloc, encoding, values, symbols)?;
    Ok(Filters { funs, marks })
}

// The filters of the first `symbols` symbols.
fn symbol_filters<'a>(
    alloc: Global,
    encoding: &Encoding<'a>,
    values: &[bool],
    symbols: usize,
) -> Result<FilterList, Or<usize>>
    requires encoding { IsEncoding encoding.now }
    requires symbols { symbols ≡ symbols_in encoding.now }
    ensures count { MatchOr result (λ funs. length funs ≡ symbols_in encoding.now) (HasNoFilter encoding.now (value_of values.now)) }
    ensures filters { MatchOr result (λ funs. AreFiltersFrom encoding.now (value_of values.now) 0 (map written_filter funs))
        (HasNoFilter encoding.now (value_of values.now)) }
{
    let mut funs = FilterList::new(alloc);
    for number in 0..symbols {
        let Some(filter) = filter_at(alloc, encoding, values, number)? else {
            return Err(Or::Because(number));
        };
        funs.push(filter)?;
    }
    Ok(funs)
}

// The filters of the marked symbols, which are numbered on behind `symbols` symbols.
fn mark_filters<'a>(
    alloc: Global,
    encoding: &Encoding<'a>,
    values: &[bool],
    symbols: usize,
) -> Result<MarkFilterList, Or<usize>>
    requires encoding { IsEncoding encoding.now }
    requires symbols { symbols ≡ symbols_in encoding.now }
    ensures marks { MatchOr result (λ marks. map (λ m. m.symbol) marks ≡ encoding.now.marked.now)
        (HasNoFilter encoding.now (value_of values.now)) }
    ensures filters { MatchOr result (λ marks. AreFiltersFrom encoding.now (value_of values.now) (symbols_in encoding.now)
        (map (λ m. written_filter m.filter) marks)) (HasNoFilter encoding.now (value_of values.now)) }
{
    let mut marks = MarkFilterList::new(alloc);
    for (i, symbol) in encoding.marked.iter().enumerate() {
        let Some(filter) = filter_at(alloc, encoding, values, symbols + i)? else {
            return Err(Or::Because(symbols + i));
        };
        marks.push(MarkFilter {
            symbol: *symbol,
            filter,
        })?;
    }
    Ok(marks)
}

// The filter of the symbol with this number; `None` where its bits write no proper one, or too great a precedence.
fn filter_at<'a>(
    alloc: Global,
    encoding: &Encoding<'a>,
    values: &[bool],
    number: usize,
) -> Result<Option<Filter>, AllocError>
    requires encoding { IsEncoding encoding.now }
    requires within { number < length encoding.now.scopes.items }
    ensures { IfOk result (λ found. MatchOption found
        ((f : WrittenFilter) → IsFilterBy (task_in encoding.now) encoding.now.marked.now (value_of values.now) number f → ⊥)
        (λ filter. IsFilterBy (task_in encoding.now) encoding.now.marked.now (value_of values.now) number (written_filter filter))) }
{
    let scope = &encoding.scopes[number];
    let from = encoding.first_bits[number] as usize;
    let places = scope.len();
    let bits = encoding.precedence_bits;
    if number_by(values, places + (places + from), bits) as usize >= encoding.scopes.len() {
        return Ok(None);
    }
    let Some(filter) = filter_by(alloc, values, from, places, bits)? else {
        return Ok(None);
    };
    if !picks_sort(scope, &filter) {
        return Ok(None);
    }
    Ok(Some(filter))
}
