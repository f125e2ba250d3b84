//! What the bits of an order have to meet where a claim of the path order holds under it, as trees of bits.
#![tactic(auto)]

mod between;
mod claim;
mod demand;
mod filters;
mod joining;
mod near;
mod orders;
mod plan;
mod planned;
mod view;

pub use claim::Claim;
pub use demand::Demand;
pub use filters::demand_of_filters;
pub use joining::{both, either};
pub use near::named_bits;
pub use orders::demand_of_orders;
pub use planned::demand_of;
pub use view::Spot;
