//! Systems of texts: what parts say, names that are looked up, and canonical raw trees.
#![tactic(auto)]

mod laws;
mod making;
mod raw_trees;
mod resolution;
mod resolving;
mod rules;
mod tables;

pub use laws::{
    canonical_parts_are_read_back, canonical_parts_say_the_system,
    canonical_terms_stand_for_themselves, parts_say_one_system, places_do_not_matter,
    systems_are_well_made,
};
pub use making::system_of;
pub use raw_trees::{raw_term, raw_type};
pub use resolving::NameTables;
