//! The precedence of the symbol that heads a tree, as the filters give it.

ghost use Rattle.std.specs.Prelude.{ℕ, ◌≡◌, length};
ghost use Rattle.wh_order_inference.specs.Said.{written_filter};
ghost use Rattle.wh_order_inference.specs.FilterText.{filter_of};
ghost use Rattle.wh_order_extended.specs.Filtered.{precedence};
ghost use Rattle.wh_order_node.specs.FilteringView.{filtering_data};
ghost use Rattle.wh_order_node.specs.Filterings.{filter_among, mark_among};
ghost use Rattle.wh_order_trees.specs.Trees.{tree};
ghost use Rattle.wh_order_trees.specs.TreeParts.{Over, World};
ghost use Rattle.wh_order.specs.Precedences.{HeadOrder};

use wh_order_inference::Filter;
use wh_order_node::Filters;
use wh_order_trees::Tree;

/// The precedence of the symbol, or of the marked symbol, that heads the tree; `None` exactly where none does.
pub fn precedence_of(filters: &Filters, t: &Tree) -> Option<u32>
    ensures { (w : World) → Over (length (filtering_data filters.now).symbols) w t.now
        → HeadOrder (filtering_data filters.now) (tree (length (filtering_data filters.now).symbols) t.now) result }
{
    match t {
        Tree::Sym(symbol, _) => Some(of_symbol(filters, *symbol)),
        Tree::Mark(symbol, _) => Some(of_mark(filters, *symbol)),
        Tree::Apply(_, _) => None,
        Tree::Meta(_, _, _) => None,
        Tree::Bound(_) | Tree::Free(_, _) | Tree::Lam(_, _) => None,
    }
}

// The precedence of a symbol.
fn of_symbol(filters: &Filters, symbol: u32) -> u32
    ensures { result ≡ precedence (filter_among (filtering_data filters.now).symbols symbol) }
{
    let funs = filters.funs.as_slice();
    let place = symbol as usize;
    if place < funs.len() {
        of_filter(&funs[place])
    } else {
        0
    }
}

// The precedence of a marked symbol.
fn of_mark(filters: &Filters, symbol: u32) -> u32
    ensures { result ≡ precedence (mark_among (filtering_data filters.now).marks symbol) }
{
    for mark in filters.marks.as_slice() {
        if mark.symbol == symbol {
            return of_filter(&mark.filter);
        }
    }
    0
}

// The precedence that a filter gives, which is 0 where the symbol gives way.
fn of_filter(filter: &Filter) -> u32
    ensures { result ≡ precedence (filter_of (written_filter filter.now)) }
{
    match filter {
        Filter::Keep { prec, .. } => *prec,
        Filter::Pick { .. } => 0,
    }
}
