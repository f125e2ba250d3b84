//! The calls of a system: where a rule may match in a call, what its step leads to, and the calls in that.
#![tactic(auto)]

mod calls;
mod places;
mod plan;
mod reducing;
mod starts;

pub use calls::{FoundCall, calls_in};
pub use places::{Place, places_of};
pub use plan::{Plan, is_call, plan_of};
pub use reducing::{Reduct, reduct_of};
pub use starts::starts_of;
