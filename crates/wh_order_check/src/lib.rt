//! The check of a node of a path order: whether argument filters and inferences show that no rule and no pair of a set
//! grows, and that the dropped ones shrink.
#![tactic(auto)]

mod check;
mod fault;
mod good;
mod inferred;
mod laws;
mod narrow;
mod one_fault;
mod proper;
mod strict;

pub use check::check_ordering;
pub use fault::OrderingFault;
pub use inferred::Inferred;
pub use laws::orders_orient_or_have_a_first_fault;
pub use one_fault::one_first_ordering_fault;
