//! Nodes of path orders: argument filters for symbols, and inferences for rules and pairs.

use wh_order_inference::{Filter, Inferences};
use wh_text::Name;
use wh_types::{List, Numbers};

/// Argument filters and inferences of the path order by which no rule and no pair grows, and some pairs shrink.
#[derive(Drop)]
pub struct OrderNode {
    /// The filters of the symbols.
    pub funs: NamedFilters,
    /// The filters of the marked symbols.
    pub marks: NamedFilters,
    /// The inference for each rule.
    pub rules: Inferences,
    /// The inference for each pair.
    pub pairs: Inferences,
    /// The pairs that shrink.
    pub drop: Numbers,
}

/// A symbol, and its argument filter.
#[derive(Drop)]
pub struct NamedFilter {
    /// The name of the symbol.
    pub name: Name,
    /// The filter.
    pub filter: Filter,
}

/// A list of filters with names.
pub type NamedFilters = List<NamedFilter>;
