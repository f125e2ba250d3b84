//! The check of a certificate item by item: the present node or steps, the sets still to be proved and the numbered
//! sides of the pairs are kept, and no more.
#![tactic(auto)]

mod copies;
mod nodes;
mod place;
mod puts;
mod steps;
mod walk;

pub use walk::Walk;
