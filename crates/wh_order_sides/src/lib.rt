//! The sides of rules and of pairs with all their arguments, as terms (Kop 2012).
#![tactic(auto)]

mod building;
mod expanding;
mod kinds;
mod metas;
mod raising;
mod room;
mod sides;

pub use room::TooWide;
pub use sides::{WideSide, extended_arguments, extended_rule};
