//! Generated systems: each has as many functions like `map` as are asked for, and is well made.
#![tactic(auto)]

mod declarations;
mod family;
mod laws;
mod rules;
mod terms;
mod types;

pub use family::{GenTooMany, generate};
pub use laws::{
    generated_systems_are_well_made, generated_systems_have_few_pairs,
    generated_systems_have_two_rules_each,
};
