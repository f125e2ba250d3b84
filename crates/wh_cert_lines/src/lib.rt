//! The lines of a node in four sections, of symbols, of marked symbols, of rules and of pairs, read byte by byte.
#![tactic(auto)]

mod order_lines;
mod poly_lines;
mod sections;

pub use order_lines::{OrderLines, OrderPlace};
pub use poly_lines::{LinesPlace, PolyLines};
pub use sections::{LineBegun, LinesStep, Section, Sections};
