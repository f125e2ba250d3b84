//! Interpretations by guesses: a solver proposes two bits for each coefficient, and a condition that fails under the
//! guess shuts out all guesses that agree with it on what is read in the condition.
#![tactic(auto)]

mod bits;
mod blocking;
mod clauses;
mod encoding;
mod guessing;
mod held;
mod hints;
mod numbers;
mod search;

pub use bits::{bit, first_bits, lists_by};
pub use clauses::{clause_of, copy_clauses};
pub use held::{Bits, Held};
pub use numbers::numbers_of_conditions;
pub use search::find_by_guesses;
