//! Tables of terms in which equal parts are kept once, each under a number: two trees are equal where their numbers
//! are.
#![tactic(auto)]

mod part;
mod sides;
mod table;

pub use part::Part;
pub use sides::{Sides, SidesList};
pub use table::Table;
