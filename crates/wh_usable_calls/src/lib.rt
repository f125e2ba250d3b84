//! Laws of nodes of interpretations that cover only the rules of a closed list: numbers bound terms, steps keep these
//! bounds, and calls of the node's set end where those by the pairs that are not dropped do. Each is the contract of a
//! function that does nothing.
#![tactic(auto)]

mod bounds;
mod coverings;

pub use bounds::{bounded_terms_have_bounds, steps_keep_bounds};
pub use coverings::usable_coverings_keep_that_calls_end;
