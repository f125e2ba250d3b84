//! What argument filters leave of symbols with arguments.

ghost use Rattle.std.specs.Prelude.{ℕ, ◌+◌, ◌-◌, ◌≡◌, ◌<◌, ◌≤◌, ◌↔◌, All, IsTrue, List, Some, IfOk, length, map, reverse, slice_get};
ghost use Rattle.wh_types.specs.Ty.{Ty};
ghost use Rattle.wh_order_inference.specs.FilterText.{WrittenFilter, filter_of};
ghost use Rattle.wh_order_inference.specs.Said.{written_filter};
ghost use Rattle.wh_order_extended.specs.Filtered.{IncreasingFrom};
ghost use Rattle.wh_order_node.specs.FilteringView.{filtering_data};
ghost use Rattle.wh_order_node.specs.Filterings.{IsProperAsWritten, mark_among};
ghost use Rattle.wh_order.specs.Kept.{AreAt, HasProperMark, IsFiltered, IsLeft, IsSpineOf};

use std::alloc::{AllocError, Global};
use wh_order_inference::Filter;
use wh_order_node::Filters;
use wh_order_trees::{Tree, Trees};
use wh_types::sum;

/// What a filter leaves of a symbol with its arguments.
#[derive(Drop)]
pub enum Kept {
    /// The symbol stays, with these arguments.
    Arguments(Trees),
    /// This argument stands in its place.
    Instead(Tree),
}

/// The head, which is no symbol and no application, applied to the trees behind it, the nearest of them last.
pub fn applied(alloc: Global, head: Tree, behind: Vec<Tree>) -> Result<Tree, AllocError>
    ensures { IfOk result (IsSpineOf head (reverse behind.items)) }
{
    if behind.is_empty() {
        return Ok(head);
    }
    let items = nearest_first(alloc, behind)?;
    Ok(Tree::Apply(Box::new(alloc, head)?, items))
}

/// The symbol behind its filter, with the arguments behind it, the first of them last.
pub fn filtered_symbol(
    alloc: Global,
    filters: &Filters,
    symbol: u32,
    behind: Vec<Tree>,
) -> Result<Tree, AllocError>
    ensures { IfOk result (λ u. (cs : List Ty) (w : WrittenFilter) → slice_get (filtering_data filters.now).symbols symbol ≡ Some w
        → IsProperAsWritten cs w → length (reverse behind.items) ≡ length cs
        → IsFiltered (length (filtering_data filters.now).symbols) symbol cs (filter_of w) (reverse behind.items) u) }
{
    let funs = filters.funs.as_slice();
    let place = symbol as usize;
    if place >= funs.len() {
        // no filter is given, so no argument is kept
        return Ok(Tree::Sym(symbol, Trees::new(alloc)));
    }
    match left_of(alloc, &funs[place], behind)? {
        Kept::Arguments(items) => Ok(Tree::Sym(symbol, items)),
        Kept::Instead(tree) => Ok(tree),
    }
}

/// The marked symbol of the symbol behind its filter, with the arguments behind it, the first of them last.
pub fn filtered_mark(
    alloc: Global,
    filters: &Filters,
    symbol: u32,
    behind: Vec<Tree>,
) -> Result<Tree, AllocError>
    ensures { IfOk result (λ u. (n : ℕ) (cs : List Ty) → HasProperMark (filtering_data filters.now).marks symbol cs
        → length (reverse behind.items) ≡ length cs
        → IsFiltered n (n + symbol) cs (mark_among (filtering_data filters.now).marks symbol) (reverse behind.items) u) }
{
    for mark in filters.marks.as_slice() {
        if mark.symbol == symbol {
            return match left_of(alloc, &mark.filter, behind)? {
                Kept::Arguments(items) => Ok(Tree::Mark(symbol, items)),
                Kept::Instead(tree) => Ok(tree),
            };
        }
    }
    Ok(Tree::Mark(symbol, Trees::new(alloc)))
}

// What the filter leaves of a symbol with these arguments, the first of them last.
fn left_of(alloc: Global, filter: &Filter, behind: Vec<Tree>) -> Result<Kept, AllocError>
    ensures { IfOk result (λ k. (cs : List Ty) → IsProperAsWritten cs (written_filter filter.now)
        → length (reverse behind.items) ≡ length cs → IsLeft (written_filter filter.now) (reverse behind.items) k) }
{
    match filter {
        Filter::Keep { places, .. } => {
            Ok(Kept::Arguments(chosen(alloc, places.as_slice(), behind)?))
        }
        Filter::Pick { place } => Ok(Kept::Instead(picked(alloc, *place, behind)?)),
    }
}

// The trees, the nearest first, of a list with the nearest last.
fn nearest_first(alloc: Global, behind: Vec<Tree>) -> Result<Trees, AllocError>
    ensures { IfOk result (λ ts. ts ≡ reverse behind.items) }
{
    let mut left = behind;
    let mut items = Trees::new(alloc);
    while let Some(tree) = left.pop() {
        items.push(tree)?;
    }
    Ok(items)
}

// The trees at the places, which are counted from 1, of a list with the first tree last.
fn chosen(alloc: Global, places: &[u32], behind: Vec<Tree>) -> Result<Trees, AllocError>
    ensures { IfOk result (λ ts. All (λ p. 0 < p) places.now
        → IncreasingFrom 0 (length (reverse behind.items)) (map (λ p. p - 1) places.now)
        → AreAt (map (λ p. p - 1) places.now) (reverse behind.items) ts) }
{
    let mut left = behind;
    let mut items = Trees::new(alloc);
    let mut wanted: usize = 0;
    let mut place: u32 = 0;
    while let Some(tree) = left.pop() {
        place = sum(place, 1)?;
        if stands_at(places, wanted, place) {
            items.push(tree)?;
            wanted += 1;
        } else {
            drop(tree);
        }
    }
    Ok(items)
}

// Whether the place stands in the list under this number.
fn stands_at(places: &[u32], number: usize, place: u32) -> bool
    ensures { IsTrue result ↔ (slice_get places.now number ≡ Some place) }
{
    number < places.len() && places[number] == place
}

// The tree at the place, which is counted from 1, of a list with the first tree last.
fn picked(alloc: Global, place: u32, behind: Vec<Tree>) -> Result<Tree, AllocError>
    ensures { IfOk result (λ t. 0 < place → place ≤ length behind.items → slice_get (reverse behind.items) (place - 1) ≡ Some t) }
{
    let mut left = behind;
    let wanted = place as usize;
    if wanted == 0 || wanted > left.len() {
        // no proper filter names such a place
        return Ok(Tree::Sym(0, Trees::new(alloc)));
    }
    let at = left.len() - wanted;
    Ok(left.swap_remove(at))
}
