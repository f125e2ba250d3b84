//! Laws on calls, on which a YES stands: where the calls of the dependency pairs lead to no endless
//! sequence, the symbols are computable, and so each well-typed term is bounded.
#![tactic(auto)]

mod calls;
mod reading;
mod sides;

pub use calls::{
    measured_calls_end, symbols_are_computable_where_calls_end, terms_are_bounded_where_calls_end,
};
pub use reading::arguments_give_computable_bodies;
pub use sides::{calls_are_served_by_pairs, right_sides_are_computable};
