//! The argument filters of a node of a path order, once its names are looked up.

use wh_order_inference::Filter;
use wh_types::List;

/// Argument filters of all symbols and of some marked symbols.
#[derive(Drop)]
pub struct Filters {
    /// The filter of each symbol, in the order of their numbers.
    pub funs: FilterList,
    /// The filters of the marked symbols.
    pub marks: MarkFilterList,
}

/// The filter of a marked symbol.
#[derive(Drop)]
pub struct MarkFilter {
    /// The number of the symbol that is marked.
    pub symbol: u32,
    /// The filter of the marked symbol.
    pub filter: Filter,
}

/// A list of filters.
pub type FilterList = List<Filter>;

/// A list of filters of marked symbols.
pub type MarkFilterList = List<MarkFilter>;
