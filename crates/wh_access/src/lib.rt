//! Ranks of sorts: whether a system is passing under ranks, and ranks under which it is.
#![tactic(auto)]

mod check;
mod demands;
mod find;
mod laws;
mod occurrence;
mod place;
mod relation;
mod sources;

pub use check::{Inaccessible, check_ranks};
pub use find::{NoRanks, find_ranks};
pub use laws::{rules_pass_or_have_a_first_break, strict_cycles_forbid_ranks};
