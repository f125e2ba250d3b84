//! The check of the path order on filtered trees: sides of rules and of pairs with all their arguments, behind the
//! filters of a node, and whether an inference is good for two of them.
#![tactic(auto)]

mod asked;
mod below;
mod check;
mod filtered;
mod goals;
mod kept;
mod letters;
mod opened;
mod precedence;
mod sift;

pub use asked::goals_of;
pub use check::{BadInference, check_inference};
pub use filtered::{filtered_pair, filtered_rule};
pub use goals::{Claim, Goal, Goals, Side};
pub use wh_order_sides::TooWide;
