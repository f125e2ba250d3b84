//! Laws on termination proofs, on which a YES stands: where the nodes prove the set of all pairs, calls lead to no
//! endless sequence, and so each well-typed term is bounded.
#![tactic(auto)]

mod example;
mod nodes;

pub use example::{
    terms_over_identity_are_bounded, terms_over_identity_are_bounded_by_usable_rules,
    terms_over_map_are_bounded, terms_over_map_are_bounded_by_an_order,
};
pub use nodes::{may_is_sound, nodes_keep_that_calls_end, proved_systems_are_bounded};
