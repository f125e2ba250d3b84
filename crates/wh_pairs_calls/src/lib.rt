//! The calls in the right side of a rule, found: where a defined symbol stands, with which arguments, below which
//! binders and within which arguments of meta-variables.
//!
//! `spine_of` takes a term apart, and `calls_of` goes through a right side. The crate is small, so that its edits that
//! must fail, each of which costs a proof of it, are cheap.
#![tactic(auto)]

mod calling;
mod conditions;
mod spine;

pub use calling::{Call, calls_of};
pub use spine::{Spine, spine_of};
