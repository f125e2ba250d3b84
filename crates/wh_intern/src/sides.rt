//! The sides of dependency pairs, with arguments as numbers of a table.

use wh_types::{List, Numbers};

/// A pair whose arguments are numbers of one table.
#[derive(Drop)]
pub struct Sides {
    /// The symbol that heads the left side.
    pub left_fun: u32,
    /// The numbers of its arguments.
    pub left: Numbers,
    /// The symbol that heads the right side.
    pub right_fun: u32,
    /// The numbers of its arguments.
    pub right: Numbers,
}

/// The sides of pairs, in order.
pub type SidesList = List<Sides>;
