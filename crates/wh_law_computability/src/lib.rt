//! Computability by recursion on three numbers, and that it is the computability on which the theorem stands. Each law
//! is the contract of a function that does nothing, and no program stands on them.
#![tactic(auto)]

mod numbers;

pub use numbers::{
    computable_terms_are_within_some_bound, computable_within_at_sorts, neutral_terms_are_numbered,
    numbered_at_arrows, numbered_at_sorts, numbered_terms_are_bounded,
    numbered_terms_are_computable, steps_of_numbered_terms, variables_are_numbered,
    within_is_computable_and_no_longer,
};
