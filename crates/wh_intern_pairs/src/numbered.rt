//! The sides of all pairs of a system, numbered once, with the table that the numbers are of.

mod building;
mod sharing;

pub use sharing::number_if_shared;
use wh_intern::{SidesList, Table};

/// The sides of pairs by numbers, with the table that the numbers are of. It is made once for all pairs of a system, so
/// that equal arguments are equal numbers wherever sides are compared.
#[derive(Drop)]
pub struct Numbered {
    /// The arguments of the sides and their parts, each tree once.
    pub table: Table,
    /// The sides of each pair, in order.
    pub sides: SidesList,
}
