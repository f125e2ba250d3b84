//! Loops in the graph of calls: a search whose every answer is to be checked.
#![tactic(auto)]

mod breadth;
mod certificate;
mod closing;
mod depth;
mod expanding;
mod graph;
mod hunt;

pub use hunt::hunt_cycles;
pub use wh_hunt_terms::Work;
