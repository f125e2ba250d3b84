//! The path order as a reduction pair: the filters of a node, and when its inferences show that no rule and no pair of
//! a set grows, and that some pairs shrink.
#![tactic(auto)]

mod filters;

pub use filters::{FilterList, Filters, MarkFilter, MarkFilterList};
