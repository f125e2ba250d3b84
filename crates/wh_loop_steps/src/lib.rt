//! The steps of a term, found: at each place beta, and the rules whose left sides match there; and what a step leads
//! to, if that fits and is small.
#![tactic(auto)]

mod candidates;
mod reduct;
mod rule_table;
mod table;

pub use candidates::{path_of, steps_of};
pub use reduct::{copy_in_space, reduct_by};
pub use rule_table::table_of_rules;
pub use table::Table;
