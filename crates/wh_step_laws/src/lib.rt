//! Laws that a YES stands on: relations at the root, finite branching, bounds, and computability,
//! each the contract of a function that does nothing.
#![tactic(auto)]

mod beta;
mod bounds;
mod branching;
mod computability;
mod roots;

pub use beta::beta_alone_ends;
pub use bounds::{
    accessible_where_bounded, bounded_where_reducts_are, lists_of_bounded_terms_end,
    longest_of_bounded_terms, parts_of_bounded_terms,
};
pub use branching::{matches_agree, matching_is_decided, reducts_are_finite};
pub use computability::{
    abstractions_are_computable, accessible_arguments_are_computable, computable_at_arrows,
    computable_at_sorts, computable_terms_are_bounded, computable_terms_are_typed,
    neutral_terms_are_computable, steps_of_computable_terms, symbols_without_rules_are_computable,
    typed_terms_are_computable, variables_are_computable,
};
pub use roots::{
    rules_are_roots, steps_are_over_rules, steps_of_abstractions_with_arguments,
    steps_of_symbols_with_arguments, steps_of_variables_with_arguments,
};
