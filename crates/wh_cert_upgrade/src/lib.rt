//! Certificates of version 1 as certificates of version 2, whose nodes of interpretations list all rules.
#![tactic(auto)]

mod laws;
mod lists;
mod loops;
mod nodes;
mod terms;
mod upgrading;

pub use laws::{upgraded_has_text, upgraded_is_short};
pub use upgrading::{upgrade, upgrade_nodes};
