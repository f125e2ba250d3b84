//! Guesses of interpretations for a set of pairs, from a space of few polynomials, and which of their conditions fail.
#![tactic(auto)]

mod guess;
mod lines;
mod making;
mod node;
mod sides;
mod terms;
mod testing;
mod uses;

pub use guess::Guess;
pub use making::{
    arguments_of, change_at, change_guess, change_mark, change_symbol, guess_by, sizes_of,
};
pub use node::{Weighing, listing_node_of_guess, node_of_guess};
pub use sides::{pair_side, rule_side};
pub use testing::{Outcome, fails, outcome_of};
pub use uses::{Uses, uses_of};
